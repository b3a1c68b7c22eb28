// No code here: the work of the peeling on the tables, as pure functions in specs/, and there and in proofs/ that it does what the peeling does.
#![tactic(auto)]
