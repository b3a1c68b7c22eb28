// No code: what the loops of the forward map do to the lent coordinates is said and proved in specs/.
#![tactic(auto)]
