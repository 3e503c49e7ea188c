// The pass along the rows, for u16 samples.
ghost use Rattle.std.specs.Prelude.{◌≡◌, ◌/◌, length};
ghost use Rattle.windows.specs.Set.{layout_of, set_of, stored_of};
ghost use Rattle.vertical.specs.Passed.{number_of};
ghost use Rattle.sideways.specs.Sideways.{passed_sideways, written_sideways};

use refusal::Numbered;
use sideways_u16::PixelFrame;

// The value of every window at every row of the range and every component: 0, No. 1 or 10.
#[unsafe(no_mangle)]
pub extern "C" fn mirror_horizontal_u16(
    src: &[u16],
    components: u32,
    rows: u32,
    row: u32,
    first: u32,
    count: u32,
    weights: &[i32],
    starts: &[u32],
    sizes: &[u32],
    excesses: &[i64],
    window: u32,
    precision: u32,
    out: &mut [u16],
) -> u32
    ensures answer { result ≡ number_of (passed_sideways (stored_of (set_of (layout_of (row / components) window starts.now sizes.now) weights.now) precision excesses.now) (length src.now) components rows row first count (length out.old)) }
    ensures written { out.new ≡ written_sideways (stored_of (set_of (layout_of (row / components) window starts.now sizes.now) weights.now) precision excesses.now) src.now components rows row first count out.old }
{
    sideways_u16::horiz_convolution_u16(
        src,
        PixelFrame {
            components: components,
            rows: rows,
            row: row,
            first: first,
            count: count,
        },
        weights,
        starts,
        sizes,
        excesses,
        window,
        precision,
        out,
    )
    .number()
}
