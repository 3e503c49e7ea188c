// `mirror_book`: the exports of include/mirror.h for the numbers of a release book. Each is one call of the library: `mirror_book` of `book`, with a place for each number
// and `stopped` for the answer, `mirror_book_lines` of `write_report`. `./mirror archive` joins the crates `mirror_*`.
#![tactic(auto)]

mod lines;
mod report;
