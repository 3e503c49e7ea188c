// `windows`: the two numberings of lines, a window of camera lines, the stores of integer weights, and the judge of whether sides, windows and precision fit.
// Normalisers, passes and `excesses` ask it; `bad_sides_value` is No. 1 of document 01, `bad_set` No. 10 as far as they share it.
#![tactic(auto)]

mod counts;
mod precisions;
mod weights;

ghost use Rattle.std.specs.Prelude.{◌≡◌, not};
ghost use Rattle.lists.specs.Ranges.{bad_sides_value};
ghost use Rattle.windows.specs.Set.{layout_of};
ghost use Rattle.windows.specs.Fit.{bad_set};

pub use counts::fills;
use counts::{counts_misfit, some_misfits};
pub use precisions::precision_fits;
pub use weights::Weight;

// a line of the camera's frame, counted from 0
#[derive(Clone, Copy)]
pub struct CameraLine(pub u32);

// a line of the output, counted from 0
#[derive(Clone, Copy)]
pub struct DisplayLine(pub u32);

// the camera lines that one display line is made of: `size` of them from `start` on
#[derive(Clone, Copy)]
pub struct Window {
    pub start: CameraLine,
    pub size: u32,
}

// a store of integer weights: a sum of weights has `bits` bits, a weight `limit` bits and a sign
#[derive(Clone, Copy)]
pub struct Store {
    pub bits: u32,
    pub limit: u32,
}

pub const STORE16: Store = Store {
    bits: 22,
    limit: 15,
};

pub const STORE32: Store = Store {
    bits: 46,
    limit: 31,
};

// Whether both sides are 1 to 8,192, for any counts of camera lines and windows.
pub fn sides_fit(lines: u32, windows: usize) -> bool
    ensures answer { result ≡ not (bad_sides_value lines windows) }
{
    !(((lines < 1) | (8192 < lines)) | ((windows < 1) | (8192 < windows)))
}

// Whether the window size, the slots and every window fit, for any numbers and lists.
pub fn set_fits(lines: u32, window_size: u32, slots: usize, starts: &[u32], sizes: &[u32]) -> bool
    ensures answer { result ≡ not (bad_set (layout_of lines window_size starts.now sizes.now) slots) }
{
    if counts_misfit(window_size, slots, starts.len(), sizes.len()) {
        return false;
    }
    !some_misfits(lines, window_size, starts, sizes)
}
