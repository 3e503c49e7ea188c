// `mirror_readers`: the exports of include/mirror.h for the sheet readers. Each is one call of `reader`, with document 01's number in place of the answer's
// case, and beside it what the sheet's head says (`Head`, `codes` for the filter) and the byte of No. 13. `./mirror archive` joins the crates `mirror_*`.
#![tactic(auto)]

mod answers;
mod either;
mod narrow;

// What stands beside an answer: the filter's code and the numbers of the six head lines; zeros on a refusal.
#[derive(Drop)]
pub struct Head {
    pub filter: u32,
    pub lines: u32,
    pub windows: u32,
    pub window_size: u32,
    pub store: u32,
    pub precision: u32,
}
