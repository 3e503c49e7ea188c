// `reader`: a weight set read back from the text of its sheet. `read_sheet` takes sheets of both stores, `read_sheet16` those of the 16-bit one. The text is looked over
// to its end (`judge`, with the scanners of `sheet_scan` and `excess_scan`) before anything is stored, so a refusal leaves the lent lists as they were; only then are its lines read into them.
#![tactic(auto)]

mod answer;
mod judge;
mod read;

pub use answer::byte;
pub use read::{read_sheet, read_sheet16};

// Why nothing was loaded: too few slots, starts, sizes or excesses lent (No. 7); or the byte where the longest acceptable beginning ends (No. 13).
#[derive(Clone, Copy)]
pub enum Unread {
    TooFew,
    NotASheet(u64),
}
