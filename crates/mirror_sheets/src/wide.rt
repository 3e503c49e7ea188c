// The sheet of a set of the 32-bit store, into `text`; how many bytes it has, in `written`.
ghost use Rattle.std.specs.Prelude.{◌≡◌, cond, length};
ghost use Rattle.windows.specs.Set.{layout_of, set_of, stored_of};
ghost use Rattle.windows.specs.Store.{store32};
ghost use Rattle.sheet.specs.Answer.{answer_of, written_of, number_of, length_of};
ghost use Rattle.codes.specs.Codes.{bad_code, no_filter, filter_of};

use codes::filter_named;
use refusal::Numbered;

// The same.
#[unsafe(no_mangle)]
pub extern "C" fn mirror_sheet32(
    filter: u32,
    lines: u32,
    window: u32,
    precision: u32,
    weights: &[i32],
    starts: &[u32],
    sizes: &[u32],
    excesses: &[i64],
    text: &mut [u8],
    written: &mut u64,
) -> u32
    ensures answer { result ≡ cond (no_filter filter) bad_code (number_of (answer_of (filter_of filter) store32 (stored_of (set_of (layout_of lines window starts.now sizes.now) weights.now) precision excesses.now) (length text.old))) }
    ensures written { text.new ≡ cond (no_filter filter) text.old (written_of (filter_of filter) store32 (stored_of (set_of (layout_of lines window starts.now sizes.now) weights.now) precision excesses.now) text.old) }
    ensures written2 { written.new ≡ cond (no_filter filter) 0 (length_of (answer_of (filter_of filter) store32 (stored_of (set_of (layout_of lines window starts.now sizes.now) weights.now) precision excesses.now) (length text.old))) }
{
    if 3 < filter {
        *written = 0;
        return 100;
    }
    let kind = filter_named(filter);
    let answer = write_sheets::write_sheet32(
        kind, lines, window, precision, weights, starts, sizes, excesses, text,
    );
    *written = answer.unwrap_or(0);
    answer.number()
}
