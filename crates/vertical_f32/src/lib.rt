// `vertical_f32`: the vertical pass over f32 samples with f64 weights, as `passed_f32` and `written_f32` of `vertical` say. Counterpart of vertical_f32/native.rs.
// Everything is judged before anything is written: sizes and shape by `vertical`, the weights in use, then each camera line in use, once.
#![tactic(auto)]

mod rows;

ghost use Rattle.std.specs.Prelude.{◌≡◌, length};
ghost use Rattle.windows.specs.Set.{layout_of, set_of};
ghost use Rattle.vertical.specs.F32.{passed_f32, written_f32};

use finite_f32::{counted, samples_fit, weights_fit};
use refusal::Refusal;
use rows::rows;
use vertical::{Frame, shape_fits, size_fits};

// The value of every window at every column of the range, in `out`, and how many of them are infinite; refused with `out` unchanged exactly where document 01 says so.
pub fn vert_convolution_f32(
    src: &[f32],
    frame: Frame,
    weights: &[f64],
    starts: &[u32],
    sizes: &[u32],
    window_size: u32,
    out: &mut [f32],
) -> Result<u32, Refusal>
    ensures answer { result ≡ passed_f32 (set_of (layout_of frame.lines window_size starts.now sizes.now) weights.now) src.now frame.row frame.first frame.count (length out.old) }
    ensures written { out.new ≡ written_f32 (set_of (layout_of frame.lines window_size starts.now sizes.now) weights.now) src.now frame.row frame.first frame.count out.old }
{
    if !size_fits(frame, starts.len()) {
        return Err(Refusal::BadSide);
    }
    if !shape_fits(
        frame,
        src.len(),
        window_size,
        weights.len(),
        starts,
        sizes,
        out.len(),
    ) {
        return Err(Refusal::DoesNotFit);
    }
    if !weights_fit(weights, starts, sizes, window_size as usize) {
        return Err(Refusal::SampleOutside);
    }
    if !samples_fit(
        src,
        frame.row as usize,
        frame.first as usize,
        frame.count as usize,
        starts,
        sizes,
    ) {
        return Err(Refusal::SampleOutside);
    }
    let finite = rows(
        src,
        frame.row as usize,
        frame.first as usize,
        frame.count as usize,
        weights,
        starts,
        sizes,
        window_size as usize,
        out,
    );
    Ok(counted(finite, out))
}
