// `book_windows`: the numbers of one sheet's windows, from windows' lines that were scanned before: nothing is kept of them. Lent to `book`, which scans first.
#![tactic(auto)]

mod weights;

ghost use Rattle.std.specs.Prelude.{◌≡◌, ◌^◌, ◌≤◌, length};
ghost use Rattle.sheet_scan.specs.Lines.{window_lines};
ghost use Rattle.sheet_scan.specs.Whole.{There, Whatever};
ghost use Rattle.book_numbers.specs.Marks.{numbers_of};
ghost use Rattle.book_windows.specs.Rows.{row_marks};

use book_numbers::{EMPTY, Report, join, window_report};
use excess_scan::{opened, window_excess};
use weights::some_negative;

// The report of all windows of a sheet whose windows' lines are at a place of the text.
pub fn count_windows(
    lines: u32,
    outs: u32,
    size: u32,
    limit: u64,
    precision: u32,
    text: &[u8],
    mid: usize,
) -> Report
    requires le_lines { (1 ≤ lines) × (lines ≤ 8192) × (outs ≤ 8192) × (1 ≤ size) × (1 ≤ limit) × (limit ≤ 2 ^ 31) × (precision ≤ 45) }
    requires mid_in_bounds { (mid ≤ length text.now) × There (window_lines lines size limit outs) text.now mid }
    ensures answer { Whatever (window_lines lines size limit outs) text.now mid (λ rows next. result ≡ numbers_of 0 (row_marks precision rows) 0 0) }
{
    let mut r = EMPTY;
    let mut p = mid;
    for i in 0..outs {
        let line = opened(i, lines, size, text, p);
        let e = window_excess(precision, limit, line.size, text, line.next);
        let negative = some_negative(limit, line.size, text, line.next);
        r = join(r, window_report(e.value, precision, negative));
        p = e.next;
    }
    r
}
