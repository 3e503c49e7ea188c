// The line of the excesses. Two places go on together: one in the windows' lines, one in this line.
ghost use Rattle.std.specs.Prelude.{◌≡◌, ◌^◌, ◌≤◌, length};
ghost use Rattle.text.specs.Text.{joined};
ghost use Rattle.scan.specs.Forms.{fixed};
ghost use Rattle.scan.specs.Answer.{Passes};
ghost use Rattle.sheet_scan.specs.Lines.{window_lines};
ghost use Rattle.sheet_scan.specs.Rows.{excess_at};
ghost use Rattle.sheet_scan.specs.Whole.{There, Whatever, excess_line};
ghost use Rattle.excess_scan.specs.Known.{known_text};

use crate::pieces::opened;
use crate::totals::window_excess;
use scan::{take_key, take_known};
use sheet::keys;
use sheet_scan::item_end;

// The excesses by commas and a newline, of the windows whose lines are at `mid`.
fn scan_list(
    lines: u32,
    outs: u32,
    window: u32,
    limit: u64,
    precision: u32,
    text: &[u8],
    mid: usize,
    at: usize,
) -> Result<usize, usize>
    requires le_lines { (1 ≤ lines) × (lines ≤ 8192) × (1 ≤ window) × (1 ≤ limit) × (limit ≤ 2 ^ 31) × (precision ≤ 45) }
    requires mid_in_bounds { (mid ≤ length text.now) × (at ≤ length text.now) }
    requires there { There (window_lines lines window limit outs) text.now mid }
    ensures answer { Whatever (window_lines lines window limit outs) text.now mid (λ rows next. Passes (fixed (joined (known_text (excess_at precision rows) outs) outs)) text.now at result) }
{
    let mut p = mid;
    let mut q = at;
    for i in 0..outs {
        let line = opened(i, lines, window, text, p);
        let e = window_excess(precision, limit, line.size, text, line.next);
        q = take_known(e.value, item_end(i, outs), text, q)?;
        p = e.next;
    }
    Ok(q)
}

// The whole line at a place of the text.
pub fn scan_excesses(
    lines: u32,
    outs: u32,
    window: u32,
    limit: u64,
    precision: u32,
    text: &[u8],
    mid: usize,
    at: usize,
) -> Result<usize, usize>
    requires le_lines { (1 ≤ lines) × (lines ≤ 8192) × (1 ≤ outs) × (1 ≤ window) × (1 ≤ limit) × (limit ≤ 2 ^ 31) × (precision ≤ 45) }
    requires mid_in_bounds { (mid ≤ length text.now) × (at ≤ length text.now) }
    requires there { There (window_lines lines window limit outs) text.now mid }
    ensures answer { Whatever (window_lines lines window limit outs) text.now mid (λ rows next. Passes (fixed (excess_line precision rows)) text.now at result) }
{
    let next = take_key(&keys::EXCESS, text, at)?;
    scan_list(lines, outs, window, limit, precision, text, mid, next)
}
