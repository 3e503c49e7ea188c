// `excess_scan`: the line of the excesses, looked over beside the windows' lines that were scanned before: `scan_excesses` works out each window's excess from its line and
// compares. It answers `Ok` with the place after the line, or `Err` with the place where the text leaves the one right text. The pieces of a right window's line are lent to the reader too.
#![tactic(auto)]

mod line;
mod pieces;
mod totals;

pub use line::scan_excesses;
pub use pieces::{opened, weight};
pub use totals::window_excess;

// A signed number and the place after what it was read from.
#[derive(Drop)]
pub struct Value {
    pub value: i64,
    pub next: usize,
}
