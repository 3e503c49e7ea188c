// `vertical_u16`: the vertical pass over u16 samples with i32 weights, as `passed_u16` and `written_u16` of `vertical` say. Counterpart of vertical_u16/native.rs.
// The judges of sizes, stored set and frame answer before anything is written; `rows` then fills the output window by window, each row by `row_u16::fill`.
#![tactic(auto)]

mod rows;

ghost use Rattle.std.specs.Prelude.{◌≡◌, length};
ghost use Rattle.windows.specs.Set.{layout_of, set_of, stored_of};
ghost use Rattle.vertical.specs.U16.{passed_u16, written_u16};

use excesses::stored_fits32;
use refusal::Refusal;
use rows::rows;
use vertical::{Frame, frame_fits, size_fits};

// The value of every window at every column of the range, in `out`; refused with `out` unchanged exactly where document 01 says so.
pub fn vert_convolution_u16(
    src: &[u16],
    frame: Frame,
    weights: &[i32],
    starts: &[u32],
    sizes: &[u32],
    excesses: &[i64],
    window_size: u32,
    precision: u32,
    out: &mut [u16],
) -> Result<(), Refusal>
    ensures answer { result ≡ passed_u16 (stored_of (set_of (layout_of frame.lines window_size starts.now sizes.now) weights.now) precision excesses.now) (length src.now) frame.row frame.first frame.count (length out.old) }
    ensures written { out.new ≡ written_u16 (stored_of (set_of (layout_of frame.lines window_size starts.now sizes.now) weights.now) precision excesses.now) src.now frame.row frame.first frame.count out.old }
{
    if !size_fits(frame, starts.len()) {
        return Err(Refusal::BadSide);
    }
    if !stored_fits32(
        frame.lines,
        window_size,
        precision,
        weights,
        starts,
        sizes,
        excesses,
    ) {
        return Err(Refusal::DoesNotFit);
    }
    if !frame_fits(frame, src.len(), starts.len(), out.len()) {
        return Err(Refusal::DoesNotFit);
    }
    rows(
        src,
        frame.row as usize,
        frame.first as usize,
        frame.count as usize,
        weights,
        starts,
        sizes,
        window_size as usize,
        precision,
        out,
    );
    Ok(())
}
