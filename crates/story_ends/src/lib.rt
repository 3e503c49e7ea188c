// `story_ends`: the story of one window at one column, laid into a lent list from its beginning on. `put_story` writes a line for each camera line (`story_text`) and the
// five lines after them, as `window_text` says; half, shift and clip are the u16 pass's, lent by `row_u16` and `clips`. Lent to `story`, which judges first.
#![tactic(auto)]

mod ends;

ghost use Rattle.std.specs.Prelude.{◌≡◌, ◌≤◌, length};
ghost use Rattle.text.specs.Text.{laid, reached};
ghost use Rattle.excesses.specs.Slots.{slot_from};
ghost use Rattle.story_text.specs.Text.{window_text};
ghost use Rattle.story_text.specs.There.{sample_from, There};

use ends::put_end;
use story_text::{put_lines, total};
use windows::CameraLine;

// The story of the window whose weights begin at the slot `from`; the place after it.
pub fn put_story(
    src: &[u16],
    row: u32,
    column: u32,
    weights: &[i32],
    from: usize,
    start: CameraLine,
    size: u32,
    p: u32,
    out: &mut [u8],
) -> usize
    requires le_p { (1 ≤ p) × (p ≤ 45) }
    requires there { There (length weights.now) (length src.now) row column from start.0 size }
    ensures answer { result ≡ reached 0 (length (window_text p start.0 (slot_from weights.now from) (sample_from src.now row column start.0) size)) }
    ensures written { out.new ≡ laid out.old 0 (window_text p start.0 (slot_from weights.now from) (sample_from src.now row column start.0) size) }
{
    let t = total(src, row, column, weights, from, start, size);
    let a = put_lines(src, row, column, weights, from, start, size, 0, out);
    put_end(t, p, a, out)
}
