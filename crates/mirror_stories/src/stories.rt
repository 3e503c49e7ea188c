// The story of a display line at a column, into `text`; how many bytes it has, in `written`.
ghost use Rattle.std.specs.Prelude.{◌≡◌, length};
ghost use Rattle.windows.specs.Set.{layout_of, set_of, stored_of};
ghost use Rattle.story.specs.Answer.{answer_of, written_of, number_of, length_of};

use refusal::Numbered;
use windows::DisplayLine;

// 0, No. 1, 10 or 11.
#[unsafe(no_mangle)]
pub extern "C" fn mirror_story(
    src: &[u16],
    lines: u32,
    row: u32,
    weights: &[i32],
    starts: &[u32],
    sizes: &[u32],
    excesses: &[i64],
    window: u32,
    precision: u32,
    line: u32,
    column: u32,
    text: &mut [u8],
    written: &mut u64,
) -> u32
    ensures answer { result ≡ number_of (answer_of (stored_of (set_of (layout_of lines window starts.now sizes.now) weights.now) precision excesses.now) src.now row line column (length text.old)) }
    ensures written { text.new ≡ written_of (stored_of (set_of (layout_of lines window starts.now sizes.now) weights.now) precision excesses.now) src.now row line column text.old }
    ensures written2 { written.new ≡ length_of (answer_of (stored_of (set_of (layout_of lines window starts.now sizes.now) weights.now) precision excesses.now) src.now row line column (length text.old)) }
{
    let answer = story::story(
        src,
        lines,
        row,
        weights,
        starts,
        sizes,
        excesses,
        window,
        precision,
        DisplayLine(line),
        column,
        text,
    );
    *written = story::length(answer);
    answer.number()
}
