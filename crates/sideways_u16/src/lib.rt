// `sideways_u16`: the horizontal pass over u16 samples with i32 weights, one to four components a pixel, as `passed_sideways` and `written_sideways` of `sideways` say. The judges
// of pixels, sizes, stored set and rows answer before anything is written, as the vertical pass's do for the exchanged frame; `pixels_u16` then fills the output, from the frame
// as it lies.
#![tactic(auto)]

mod judge;

ghost use Rattle.std.specs.Prelude.{◌≡◌, ◌/◌, length};
ghost use Rattle.windows.specs.Set.{layout_of, set_of, stored_of};
ghost use Rattle.sideways.specs.Sideways.{passed_sideways, written_sideways};

use excesses::stored_fits32;
use judge::{rows_fit, sizes_fit};
use pixels_u16::fill_rows;
use refusal::Refusal;

// A frame of pixels, row after row, and the rows of it that are asked for.
#[derive(Clone, Copy)]
pub struct PixelFrame {
    // samples of a pixel, one to four
    pub components: u32,
    pub rows: u32,
    // samples of a row
    pub row: u32,
    // the first row asked for
    pub first: u32,
    // how many rows
    pub count: u32,
}

// The value of every window at every row of the range and every component, in `out`, row by row and pixel by pixel; refused with `out` unchanged exactly where document 02
// says so. The set's windows are over the pixels of a row.
pub fn horiz_convolution_u16(
    src: &[u16],
    frame: PixelFrame,
    weights: &[i32],
    starts: &[u32],
    sizes: &[u32],
    excesses: &[i64],
    window_size: u32,
    precision: u32,
    out: &mut [u16],
) -> Result<(), Refusal>
    ensures answer { result ≡ passed_sideways (stored_of (set_of (layout_of (frame.row / frame.components) window_size starts.now sizes.now) weights.now) precision excesses.now) (length src.now) frame.components frame.rows frame.row frame.first frame.count (length out.old) }
    ensures written { out.new ≡ written_sideways (stored_of (set_of (layout_of (frame.row / frame.components) window_size starts.now sizes.now) weights.now) precision excesses.now) src.now frame.components frame.rows frame.row frame.first frame.count out.old }
{
    if !sizes_fit(frame, starts.len()) {
        return Err(Refusal::BadSide);
    }
    if !stored_fits32(
        frame.row / frame.components,
        window_size,
        precision,
        weights,
        starts,
        sizes,
        excesses,
    ) {
        return Err(Refusal::DoesNotFit);
    }
    if !rows_fit(frame, src.len(), starts.len(), out.len()) {
        return Err(Refusal::DoesNotFit);
    }
    fill_rows(
        src,
        frame.components as usize,
        frame.row as usize,
        frame.first as usize,
        frame.count as usize,
        weights,
        starts,
        sizes,
        window_size as usize,
        precision,
        out,
    );
    Ok(())
}
