// No code here: specs/ and proofs/ prove what maps and repair keep: coordinates as sums, their bounds, areas, and the raises of repair.
// No code here: specs/ and proofs/ hold the theory.
#![tactic(auto)]
