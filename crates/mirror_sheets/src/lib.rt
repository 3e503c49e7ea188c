// `mirror_sheets`: the exports of include/mirror.h for the sheet writers. Each is one call of `sheet`, with document 01's number in place of the answer's case,
// the text's length beside it and `codes` for what a number names. `./mirror archive` joins the crates `mirror_*`.
#![tactic(auto)]

mod narrow;
mod wide;
