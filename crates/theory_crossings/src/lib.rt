// No code here: specs/ holds the theory.
#![tactic(auto)]
