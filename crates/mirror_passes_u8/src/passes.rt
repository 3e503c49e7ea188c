// The vertical pass for u8 displays.
ghost use Rattle.std.specs.Prelude.{◌≡◌, length};
ghost use Rattle.windows.specs.Set.{layout_of, set_of, stored_of};
ghost use Rattle.vertical.specs.Passed.{number_of};
ghost use Rattle.vertical_u8.specs.U8.{passed_u8, written_u8};

use refusal::Numbered;
use vertical::Frame;

// The value of every window at every column of the range, u8 samples with the weights of the 16-bit store: 0, No. 1, 10 or 9.
#[unsafe(no_mangle)]
pub extern "C" fn mirror_vertical_u8(
    src: &[u8],
    lines: u32,
    row: u32,
    first: u32,
    count: u32,
    weights: &[i16],
    starts: &[u32],
    sizes: &[u32],
    excesses: &[i64],
    window: u32,
    precision: u32,
    out: &mut [u8],
) -> u32
    ensures answer { result ≡ number_of (passed_u8 (stored_of (set_of (layout_of lines window starts.now sizes.now) weights.now) precision excesses.now) (length src.now) row first count (length out.old)) }
    ensures written { out.new ≡ written_u8 (stored_of (set_of (layout_of lines window starts.now sizes.now) weights.now) precision excesses.now) src.now row first count out.old }
{
    vertical_u8::vert_convolution_u8(
        src,
        Frame {
            lines: lines,
            row: row,
            first: first,
            count: count,
        },
        weights,
        starts,
        sizes,
        excesses,
        window,
        precision,
        out,
    )
    .number()
}
