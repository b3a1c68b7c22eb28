// What one raise does to the coordinates, and how words in scratch lead to it. Specs only.
#![tactic(auto)]
