// A sheet of either store, into a list of 32-bit weights.
ghost use Rattle.std.specs.Prelude.{true};
ghost use Rattle.reader.specs.Reading.{lists};
ghost use Rattle.mirror_readers.specs.Told.{headed, Tells};

use crate::answers::head_of;
use refusal::Numbered;

// The set of the text in the four lists, and what the sheet's head says in six places: 0, No. 7 or 13.
#[unsafe(no_mangle)]
pub extern "C" fn mirror_read_sheet(
    text: &[u8],
    weights: &mut [i32],
    starts: &mut [u32],
    sizes: &mut [u32],
    excesses: &mut [i64],
    filter: &mut u32,
    lines: &mut u32,
    windows: &mut u32,
    window: &mut u32,
    store: &mut u32,
    precision: &mut u32,
    byte: &mut u64,
) -> u32
    ensures tells { Tells true text.now (lists weights.old starts.old sizes.old excesses.old) (lists weights.new starts.new sizes.new excesses.new) result (headed filter.new lines.new windows.new window.new store.new precision.new) byte.new }
{
    let answer = reader::read_sheet(text, weights, starts, sizes, excesses);
    let head = head_of(answer);
    *filter = head.filter;
    *lines = head.lines;
    *windows = head.windows;
    *window = head.window_size;
    *store = head.store;
    *precision = head.precision;
    *byte = reader::byte(answer);
    answer.number()
}
