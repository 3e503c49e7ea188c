// `book_numbers`: the numbers of a release book. A `Report` says of some sheets how many they are, how many windows they have, the smallest and the largest excess,
// how many windows fail the flat premise and how many have a negative weight. `window_report` is that of one window; `join` that of two parts, one after the other.
#![tactic(auto)]

mod joins;
mod marks;

pub use joins::join;
pub use marks::window_report;

// The report. `stopped` is 0, or the number of the refusal that ended it; `byte` is up to where the text was right, which is its whole length where nothing stopped it.
#[derive(Clone, Copy)]
pub struct Report {
    pub sheets: u64,
    pub windows: u64,
    pub least: i64,
    pub most: i64,
    pub notflat: u64,
    pub negative: u64,
    pub stopped: u32,
    pub byte: u64,
}

// The report of no text.
pub const EMPTY: Report = Report {
    sheets: 0,
    windows: 0,
    least: 0,
    most: 0,
    notflat: 0,
    negative: 0,
    stopped: 0,
    byte: 0,
};
