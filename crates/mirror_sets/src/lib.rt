// `mirror_sets`: the export of include/mirror.h for the weight builder. It is one call of `coefficients::build`, with document 01's number in place of the
// answer's case and `codes` for what a number names. A slice is a pointer and a count of elements. `./mirror archive` joins the crates `mirror_*`.
#![tactic(auto)]

mod sets;
