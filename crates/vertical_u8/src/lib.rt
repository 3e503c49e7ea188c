// `vertical_u8`: the vertical pass over u8 samples with i16 weights, as `passed_u8` and `written_u8` say: the u16 pass's formula with 255 for the largest sample. Ours;
// the given Rust has none. `judge` looks at every window's weights before anything is written, so that no sum of i32 can wrap; `rows` then fills the
// output window by window, each row by the worker `row_u8` lends.
#![tactic(auto)]

mod judge;
mod rows;

ghost use Rattle.std.specs.Prelude.{◌≡◌, length};
ghost use Rattle.windows.specs.Set.{layout_of, set_of, stored_of};
ghost use Rattle.vertical_u8.specs.U8.{passed_u8, written_u8};

use excesses::stored_fits16;
use judge::some_heavy;
use refusal::Refusal;
use rows::rows;
use vertical::{Frame, frame_fits, size_fits};

// The value of every window at every column of the range, in `out`; refused with `out` unchanged exactly where document 02 says so.
pub fn vert_convolution_u8(
    src: &[u8],
    frame: Frame,
    weights: &[i16],
    starts: &[u32],
    sizes: &[u32],
    excesses: &[i64],
    window_size: u32,
    precision: u32,
    out: &mut [u8],
) -> Result<(), Refusal>
    ensures answer { result ≡ passed_u8 (stored_of (set_of (layout_of frame.lines window_size starts.now sizes.now) weights.now) precision excesses.now) (length src.now) frame.row frame.first frame.count (length out.old) }
    ensures written { out.new ≡ written_u8 (stored_of (set_of (layout_of frame.lines window_size starts.now sizes.now) weights.now) precision excesses.now) src.now frame.row frame.first frame.count out.old }
{
    if !size_fits(frame, starts.len()) {
        return Err(Refusal::BadSide);
    }
    if !stored_fits16(
        frame.lines,
        window_size,
        precision,
        weights,
        starts,
        sizes,
        excesses,
    ) {
        return Err(Refusal::DoesNotFit);
    }
    if !frame_fits(frame, src.len(), starts.len(), out.len()) {
        return Err(Refusal::DoesNotFit);
    }
    if some_heavy(weights, sizes, window_size as usize, precision) {
        return Err(Refusal::WeightOutside);
    }
    rows(
        src,
        frame.row as usize,
        frame.first as usize,
        frame.count as usize,
        weights,
        starts,
        sizes,
        window_size as usize,
        precision,
        out,
    );
    Ok(())
}
