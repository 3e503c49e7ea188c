// `made_sets`: what a request makes in a share of so many slots, a set of the 32-bit store or the answer that refuses it (`made_of`), and that such a set fits the share.
// Definitions and laws for `store_sets`, which makes it, and `shares`, whose machine keeps it; no functions.
#![tactic(auto)]
