// `orders`: laws on counts of a test, on which of two sums is the larger and by how much, and on what stands before the first that passes. No functions.
#![tactic(auto)]
