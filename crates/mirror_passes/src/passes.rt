// The two vertical passes.
ghost use Rattle.std.specs.Prelude.{◌≡◌, length};
ghost use Rattle.windows.specs.Set.{layout_of, set_of, stored_of};
ghost use Rattle.vertical.specs.Passed.{number_of};
ghost use Rattle.vertical.specs.PassedF32.{number_of as numberOfF32, infinite_in};
ghost use Rattle.vertical.specs.F32.{passed_f32, written_f32};
ghost use Rattle.vertical.specs.U16.{passed_u16, written_u16};

use refusal::Numbered;
use vertical::Frame;

// The value of every window at every column of the range, u16 samples: 0, No. 1 or No. 10.
#[unsafe(no_mangle)]
pub extern "C" fn mirror_vertical_u16(
    src: &[u16],
    lines: u32,
    row: u32,
    first: u32,
    count: u32,
    weights: &[i32],
    starts: &[u32],
    sizes: &[u32],
    excesses: &[i64],
    window: u32,
    precision: u32,
    out: &mut [u16],
) -> u32
    ensures answer { result ≡ number_of (passed_u16 (stored_of (set_of (layout_of lines window starts.now sizes.now) weights.now) precision excesses.now) (length src.now) row first count (length out.old)) }
    ensures written { out.new ≡ written_u16 (stored_of (set_of (layout_of lines window starts.now sizes.now) weights.now) precision excesses.now) src.now row first count out.old }
{
    vertical_u16::vert_convolution_u16(
        src,
        Frame {
            lines: lines,
            row: row,
            first: first,
            count: count,
        },
        weights,
        starts,
        sizes,
        excesses,
        window,
        precision,
        out,
    )
    .number()
}

// The same of f32 samples, with weights as doubles, and in `infinite` how many of the written samples are infinite: 0, No. 1, 10 or 12.
#[unsafe(no_mangle)]
pub extern "C" fn mirror_vertical_f32(
    src: &[f32],
    lines: u32,
    row: u32,
    first: u32,
    count: u32,
    weights: &[f64],
    starts: &[u32],
    sizes: &[u32],
    window: u32,
    out: &mut [f32],
    infinite: &mut u32,
) -> u32
    ensures answer { result ≡ numberOfF32 (passed_f32 (set_of (layout_of lines window starts.now sizes.now) weights.now) src.now row first count (length out.old)) }
    ensures written { out.new ≡ written_f32 (set_of (layout_of lines window starts.now sizes.now) weights.now) src.now row first count out.old }
    ensures written2 { infinite.new ≡ infinite_in (passed_f32 (set_of (layout_of lines window starts.now sizes.now) weights.now) src.now row first count (length out.old)) }
{
    let answer = vertical_f32::vert_convolution_f32(
        src,
        Frame {
            lines: lines,
            row: row,
            first: first,
            count: count,
        },
        weights,
        starts,
        sizes,
        window,
        out,
    );
    *infinite = vertical::infinite(answer);
    answer.number()
}
