// A sheet of the 16-bit store, into a list of 16-bit weights.
ghost use Rattle.std.specs.Prelude.{false};
ghost use Rattle.reader.specs.Reading.{lists};
ghost use Rattle.mirror_readers.specs.Told.{headed, Tells};

use crate::answers::head_of;
use refusal::Numbered;

// The same; a sheet of the 32-bit store is No. 13 at the digit after `store=`.
#[unsafe(no_mangle)]
pub extern "C" fn mirror_read_sheet16(
    text: &[u8],
    weights: &mut [i16],
    starts: &mut [u32],
    sizes: &mut [u32],
    excesses: &mut [i64],
    filter: &mut u32,
    lines: &mut u32,
    windows: &mut u32,
    window: &mut u32,
    store: &mut u32,
    precision: &mut u32,
    byte: &mut u64,
) -> u32
    ensures tells { Tells false text.now (lists weights.old starts.old sizes.old excesses.old) (lists weights.new starts.new sizes.new excesses.new) result (headed filter.new lines.new windows.new window.new store.new precision.new) byte.new }
{
    let answer = reader::read_sheet16(text, weights, starts, sizes, excesses);
    let head = head_of(answer);
    *filter = head.filter;
    *lines = head.lines;
    *windows = head.windows;
    *window = head.window_size;
    *store = head.store;
    *precision = head.precision;
    *byte = reader::byte(answer);
    answer.number()
}
