// No code here: specs/ holds what document 01 says, as definitions that compute, and proofs/ the paper's own cases, and others, tried on them.
#![tactic(auto)]
