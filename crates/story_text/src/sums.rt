// The numbers of a story, in 64 bits, where no sum of 8,192 products wraps.
ghost use Rattle.std.specs.Prelude.{◌≡◌, ◌+◌, ◌*◌, ◌^◌, ◌≤◌, ◌<◌, nat_abs, length};
ghost use Rattle.integers.specs.Sums.{total as total_of};
ghost use Rattle.vertical.specs.Frame.{frame};
ghost use Rattle.excesses.specs.Slots.{slot_from};
ghost use Rattle.story_text.specs.Text.{product as product_of};
ghost use Rattle.story_text.specs.There.{sample_from, There};

use row_u16::step;
use windows::CameraLine;

// The sample of a camera line at a column.
pub(crate) fn sample_at(src: &[u16], row: u32, column: u32, line: CameraLine) -> u16
    requires { line.0 * row + column < length src.now }
    ensures answer { result ≡ frame 0 src.now row line.0 column }
{
    src[line.0 as usize * row as usize + column as usize]
}

// A weight times a sample: a step of the pass's sum, from 0.
pub(crate) fn product(weight: i32, sample: u16) -> i64
    ensures answer { result ≡ product_of weight sample }
{
    step(0, weight, sample)
}

// The total of the products, by the pass's own step.
pub fn total(
    src: &[u16],
    row: u32,
    column: u32,
    weights: &[i32],
    from: usize,
    start: CameraLine,
    size: u32,
) -> i64
    requires { There (length weights.now) (length src.now) row column from start.0 size }
    ensures answer { (result ≡ total_of (slot_from weights.now from) (sample_from src.now row column start.0) size) × (nat_abs result ≤ 2 ^ 60) }
{
    let mut t: i64 = 0;
    for k in 0..size {
        let sample = sample_at(src, row, column, CameraLine(start.0 + k));
        t = step(t, weights[from + k as usize], sample);
    }
    t
}
