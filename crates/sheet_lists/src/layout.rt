// Starts, sizes and excesses, from windows' lines that were scanned before.
ghost use Rattle.std.specs.Prelude.{◌≡◌, ◌^◌, ◌≤◌, length};
ghost use Rattle.lists.specs.Tab.{front};
ghost use Rattle.sheet_scan.specs.Lines.{window_lines};
ghost use Rattle.sheet_scan.specs.Rows.{start_at, size_at, excess_at};
ghost use Rattle.sheet_scan.specs.Whole.{There, Whatever};

use excess_scan::{opened, window_excess};

// The starts, sizes and excesses of `outs` windows, from the lines at a place of the text.
pub fn fill_layout(
    lines: u32,
    outs: u32,
    window: u32,
    limit: u64,
    precision: u32,
    text: &[u8],
    at: usize,
    starts: &mut [u32],
    sizes: &mut [u32],
    excesses: &mut [i64],
)
    requires le_lines { (1 ≤ lines) × (lines ≤ 8192) × (1 ≤ window) × (1 ≤ limit) × (limit ≤ 2 ^ 31) × (precision ≤ 45) × (at ≤ length text.now) }
    requires outs_in_bounds { (outs ≤ length starts.old) × (outs ≤ length sizes.old) × (outs ≤ length excesses.old) }
    requires there { There (window_lines lines window limit outs) text.now at }
    ensures starts { Whatever (window_lines lines window limit outs) text.now at (λ rows next. starts.new ≡ front outs (start_at rows) starts.old) }
    ensures sizes { Whatever (window_lines lines window limit outs) text.now at (λ rows next. sizes.new ≡ front outs (size_at rows) sizes.old) }
    ensures excesses { Whatever (window_lines lines window limit outs) text.now at (λ rows next. excesses.new ≡ front outs (excess_at precision rows) excesses.old) }
{
    let mut p = at;
    for i in 0..outs {
        let line = opened(i, lines, window, text, p);
        starts[i as usize] = line.start;
        sizes[i as usize] = line.size;
        let e = window_excess(precision, limit, line.size, text, line.next);
        excesses[i as usize] = e.value;
        p = e.next;
    }
}
