// The pieces of windows' lines that were scanned before: each is there, so none can fail.
ghost use Rattle.std.specs.Prelude.{◌≡◌, ◌^◌, ◌≤◌, ◌<◌, length};
ghost use Rattle.scan.specs.Form.{Found};
ghost use Rattle.sheet_scan.specs.Lines.{weight_item, open_line};
ghost use Rattle.sheet_scan.specs.Whole.{There};

use crate::Value;
use scan::take_signed;
use sheet_scan::{WindowAt, item_end, take_open};

// The beginning of the line of window i.
pub fn opened(i: u32, lines: u32, window: u32, text: &[u8], at: usize) -> WindowAt
    requires le_lines { (1 ≤ lines) × (1 ≤ window) × (at ≤ length text.now) }
    requires there { There (open_line lines window i) text.now at }
    ensures answer { Found (open_line lines window i) text.now at (result.start, result.size) result.next }
{
    take_open(i, lines, window, text, at).unwrap()
}

// Weight j of a window of `size` lines.
pub fn weight(limit: u64, size: u32, j: u32, text: &[u8], at: usize) -> Value
    requires le_limit { (1 ≤ limit) × (limit ≤ 2 ^ 31) × (at ≤ length text.now) × (j < size) }
    requires there { There (weight_item limit size j) text.now at }
    ensures answer { Found (weight_item limit size j) text.now at result.value result.next }
{
    let (value, next) = take_signed(limit, item_end(j, size), text, at).unwrap();
    Value { value, next }
}
