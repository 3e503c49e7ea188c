// `sheet_scan`: the text of a sheet looked over at any place of a lent text, nothing kept. `scan_sizes` takes the kind line and the three size lines, `scan_rest` all
// after them; each answers `Ok` with what its lines say and the place after them, or `Err` with the place where the text stops being like the writer's. `wide` says whether sheets of the 32-bit store are taken too.
#![tactic(auto)]

mod heads;
mod names;
mod rest;
mod rows;

use filters::FilterType;
pub use heads::scan_sizes;
pub use rest::{limit_of, scan_rest};
pub use rows::{item_end, scan_weights, take_open};

// What the first four lines of a sheet say.
#[derive(Clone, Copy)]
pub struct Sizes {
    pub kind: FilterType,
    pub lines: u32,
    pub windows: u32,
    pub window_size: u32,
}

// What its next two lines say: the bits of a weight, 16 or 32, and the precision.
#[derive(Clone, Copy)]
pub struct StoreLines {
    pub bits: u32,
    pub precision: u32,
}

// The beginning of a window's line: its first camera line, its count of lines and the place of its weights.
#[derive(Drop)]
pub struct WindowAt {
    pub start: u32,
    pub size: u32,
    pub next: usize,
}
