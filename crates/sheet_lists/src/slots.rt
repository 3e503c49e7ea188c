// Weights of either store, from windows' lines that were scanned before.
ghost use Rattle.std.specs.Prelude.{◌≡◌, ◌*◌, ◌^◌, ◌≤◌, ◌<◌, length};
ghost use Rattle.lists.specs.Tab.{tab, front, grid};
ghost use Rattle.scan.specs.Forms.{run};
ghost use Rattle.sheet_scan.specs.Lines.{weight_item, window_lines};
ghost use Rattle.sheet_scan.specs.Rows.{slot_at};
ghost use Rattle.sheet_scan.specs.Whole.{There, Whatever, slot_of, no_weight};

use excess_scan::{opened, weight};
use windows::Weight;

// All of this is written into what calls it (`inline`), as far as the reader: a caller that looks at no weight, as `read_back`, then has no list of them to fill.

// Every slot 0.
#[inline(always)]
fn zero<W: Weight>(out: &mut [W])
    ensures written { W.values out.new ≡ tab 0 (length out.old) no_weight }
{
    for slot in out.iter_mut() {
        *slot = W::from_number(0);
    }
}

// The weights of a window of `size` lines into the first slots; the place after them.
#[inline(always)]
fn put_weights<W: Weight>(limit: u64, size: u32, text: &[u8], at: usize, out: &mut [W]) -> usize
    requires le_limit { (1 ≤ limit) × (limit ≤ 2 ^ W.STORE.limit) × (at ≤ length text.now) × (size ≤ length out.old) }
    requires there { There (run (weight_item limit size) 0 size) text.now at }
    ensures answer { Whatever (run (weight_item limit size) 0 size) text.now at (λ l next. result ≡ next) }
    ensures written { Whatever (run (weight_item limit size) 0 size) text.now at (λ l next. W.values out.new ≡ front size (slot_of l) (W.values out.old)) }
{
    let mut p = at;
    for j in 0..size {
        let w = weight(limit, size, j, text, p);
        out[j as usize] = W::from_number(w.value);
        p = w.next;
    }
    p
}

// The slots of one window: its weights and then zeros; the place after its line.
#[inline(always)]
fn fill_row<W: Weight>(limit: u64, size: u32, text: &[u8], at: usize, out: &mut [W]) -> usize
    requires le_limit { (1 ≤ limit) × (limit ≤ 2 ^ W.STORE.limit) × (at ≤ length text.now) × (size ≤ length out.old) }
    requires there { There (run (weight_item limit size) 0 size) text.now at }
    ensures answer { Whatever (run (weight_item limit size) 0 size) text.now at (λ l next. result ≡ next) }
    ensures written { Whatever (run (weight_item limit size) 0 size) text.now at (λ l next. W.values out.new ≡ tab 0 (length out.old) (slot_of l)) }
{
    zero(out);
    put_weights(limit, size, text, at, out)
}

// The slots of `outs` windows, from the lines at a place of the text.
#[inline(always)]
pub fn fill_slots<W: Weight>(
    lines: u32,
    outs: u32,
    window: u32,
    limit: u64,
    text: &[u8],
    at: usize,
    weights: &mut [W],
)
    requires le_lines { (1 ≤ lines) × (1 ≤ window) × (1 ≤ limit) × (limit ≤ 2 ^ W.STORE.limit) × (at ≤ length text.now) }
    requires window_in_bounds { outs * window ≤ length weights.old }
    requires there { There (window_lines lines window limit outs) text.now at }
    ensures written { Whatever (window_lines lines window limit outs) text.now at (λ rows next. W.values weights.new ≡ front (outs * window) (grid window (slot_at rows)) (W.values weights.old)) }
{
    let wide = window as usize;
    let mut p = at;
    let mut a: usize = 0;
    for i in 0..outs {
        let line = opened(i, lines, window, text, p);
        let e = a + wide;
        p = fill_row(limit, line.size, text, line.next, &mut weights[a..e]);
        a = e;
    }
}
