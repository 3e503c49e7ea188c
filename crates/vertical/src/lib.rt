// `vertical`: what the vertical passes answer and write. The definitions that `vertical_u16` and `vertical_f32` are proved against, the judges of sizes, frame
// and columns that all passes ask (`bad_size` is No. 1 of document 01, `bad_area` the No. 10 that they share), and the promise that a range of columns gives
// those columns of the whole frame.
#![tactic(auto)]

mod answer;

ghost use Rattle.std.specs.Prelude.{◌≡◌, not};
ghost use Rattle.windows.specs.Set.{layout_of};
ghost use Rattle.vertical.specs.Frame.{bad_size, bad_range, bad_area, bad_shape};

pub use answer::infinite;
use windows::{fills, set_fits, sides_fit};

// A frame of samples, line after line, and the columns of it that are asked for.
#[derive(Clone, Copy)]
pub struct Frame {
    // camera lines
    pub lines: u32,
    // samples of a line
    pub row: u32,
    // the first column asked for
    pub first: u32,
    // how many columns
    pub count: u32,
}

// Whether both sides are 1 to 8,192 and a row has 1 to 32,768 samples, for any counts.
pub fn size_fits(frame: Frame, windows: usize) -> bool
    ensures answer { result ≡ not (bad_size frame.lines windows frame.row) }
{
    if !sides_fit(frame.lines, windows) {
        return false;
    }
    !((frame.row < 1) | (32768 < frame.row))
}

// Whether the set, the frame and the columns fit their lists, for any numbers and lists.
pub fn shape_fits(
    frame: Frame,
    samples: usize,
    window_size: u32,
    slots: usize,
    starts: &[u32],
    sizes: &[u32],
    room: usize,
) -> bool
    ensures answer { result ≡ not (bad_shape (layout_of frame.lines window_size starts.now sizes.now) slots samples frame.row frame.first frame.count room) }
{
    if !set_fits(frame.lines, window_size, slots, starts, sizes) {
        return false;
    }
    frame_fits(frame, samples, starts.len(), room)
}

// Whether the frame and the columns fit their lists, for any numbers.
pub fn frame_fits(frame: Frame, samples: usize, windows: usize, room: usize) -> bool
    ensures answer { result ≡ not (bad_area frame.lines windows samples frame.row frame.first frame.count room) }
{
    if !fills(samples, frame.lines as usize, frame.row) {
        return false;
    }
    columns_fit(frame.row, frame.first, frame.count, windows, room)
}

// Whether the columns are in the row, and the output has room for them exactly. Their end is taken in 64 bits, where it cannot wrap.
fn columns_fit(row: u32, first: u32, count: u32, windows: usize, room: usize) -> bool
    ensures answer { result ≡ not (bad_range row first count windows room) }
{
    let end = first as u64 + count as u64;
    let full = fills(room, windows, count);
    !(((row as u64) < end) | !full)
}
