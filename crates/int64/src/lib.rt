// No code here: specs/ has the laws of whole numbers in 64 bits that the crates share.
#![tactic(auto)]
