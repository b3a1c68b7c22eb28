// No code here: specs/ and proofs/ hold the theory.
#![tactic(auto)]
