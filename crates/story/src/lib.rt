// `story`: why one output sample of the u16 pass has its number. `story` judges sizes, stored set and frame as the pass does, then the place and the room, and lays
// `story_text_value` over the beginning of the lent list. The text's length comes from the same run over a list of one byte, since what falls past a list's end is not written
// and counted all the same.
#![tactic(auto)]

mod answer;
mod place;

ghost use Rattle.std.specs.Prelude.{◌≡◌, cond, ◌≤◌, length, Ok, Err};
ghost use Rattle.text.specs.Text.{over};
ghost use Rattle.windows.specs.Set.{layout_of, set_of, stored_of};
ghost use Rattle.excesses.specs.Slots.{slot_from};
ghost use Rattle.sheet.specs.Answer.{no_room};
ghost use Rattle.story_text.specs.Text.{window_text};
ghost use Rattle.story_text.specs.There.{sample_from, There};
ghost use Rattle.refusal.specs.declared.Refusal.TheVariants.{NoRoom};
ghost use Rattle.story.specs.Answer.{answer_of, written_of};

pub use answer::length;
use excesses::stored_fits32;
use place::misses;
use refusal::Refusal;
use story_ends::put_story;
use vertical::{Frame, size_fits};
use windows::{CameraLine, DisplayLine, fills};

// The story of a window that is there, or No. 11.
fn tell(
    src: &[u16],
    row: u32,
    column: u32,
    weights: &[i32],
    from: usize,
    start: CameraLine,
    size: u32,
    p: u32,
    out: &mut [u8],
) -> Result<u64, Refusal>
    requires le_p { (1 ≤ p) × (p ≤ 45) }
    requires there { There (length weights.now) (length src.now) row column from start.0 size }
    ensures answer { result ≡ cond (no_room (length out.old) (length (window_text p start.0 (slot_from weights.now from) (sample_from src.now row column start.0) size))) (Err NoRoom) (Ok (length (window_text p start.0 (slot_from weights.now from) (sample_from src.now row column start.0) size))) }
    ensures written { out.new ≡ cond (no_room (length out.old) (length (window_text p start.0 (slot_from weights.now from) (sample_from src.now row column start.0) size))) out.old (over (window_text p start.0 (slot_from weights.now from) (sample_from src.now row column start.0) size) out.old) }
{
    let mut none = [0u8; 1];
    let n = put_story(src, row, column, weights, from, start, size, p, &mut none);
    if out.len() < n {
        return Err(Refusal::NoRoom);
    }
    put_story(src, row, column, weights, from, start, size, p, out);
    Ok(n as u64)
}

// The story of a display line at a column, in `out`, for any numbers and lists; refused with `out` unchanged.
pub fn story(
    src: &[u16],
    lines: u32,
    row: u32,
    weights: &[i32],
    starts: &[u32],
    sizes: &[u32],
    excesses: &[i64],
    window_size: u32,
    precision: u32,
    line: DisplayLine,
    column: u32,
    out: &mut [u8],
) -> Result<u64, Refusal>
    ensures answer { result ≡ answer_of (stored_of (set_of (layout_of lines window_size starts.now sizes.now) weights.now) precision excesses.now) src.now row line.0 column (length out.old) }
    ensures written { out.new ≡ written_of (stored_of (set_of (layout_of lines window_size starts.now sizes.now) weights.now) precision excesses.now) src.now row line.0 column out.old }
{
    let frame = Frame {
        lines: lines,
        row: row,
        first: column,
        count: 1,
    };
    if !size_fits(frame, starts.len()) {
        return Err(Refusal::BadSide);
    }
    if !stored_fits32(
        lines,
        window_size,
        precision,
        weights,
        starts,
        sizes,
        excesses,
    ) {
        return Err(Refusal::DoesNotFit);
    }
    if !fills(src.len(), lines as usize, row) {
        return Err(Refusal::DoesNotFit);
    }
    if misses(starts.len(), row, line, column) {
        return Err(Refusal::DoesNotFit);
    }
    let i = line.0 as usize;
    let from = i * window_size as usize;
    tell(
        src,
        row,
        column,
        weights,
        from,
        CameraLine(starts[i]),
        sizes[i],
        precision,
        out,
    )
}
