// Totals and excesses of windows, from windows' lines that were scanned before. 8,192 weights of 32 bits cannot wrap in 64.
ghost use Rattle.std.specs.Prelude.{◌≡◌, ◌^◌, ◌≤◌, nat_abs, length};
ghost use Rattle.integers.specs.Sums.{sum};
ghost use Rattle.windows.specs.Set.{excess};
ghost use Rattle.scan.specs.Forms.{run};
ghost use Rattle.sheet_scan.specs.Lines.{weight_item};
ghost use Rattle.sheet_scan.specs.Whole.{There, Whatever, slot_of};

use crate::Value;
use crate::pieces::weight;
use excesses::{add, power};

// The total of the weights of a window of `size` lines, and the place after them.
fn total(limit: u64, size: u32, text: &[u8], at: usize) -> Value
    requires le_limit { (1 ≤ limit) × (limit ≤ 2 ^ 31) × (size ≤ 8192) × (at ≤ length text.now) }
    requires there { There (run (weight_item limit size) 0 size) text.now at }
    ensures answer { Whatever (run (weight_item limit size) 0 size) text.now at (λ l next. (result.value ≡ sum (slot_of l) size) × (result.next ≡ next)) }
    ensures small { nat_abs result.value ≤ 2 ^ 44 }
{
    let mut t: i64 = 0;
    let mut p = at;
    for j in 0..size {
        let w = weight(limit, size, j, text, p);
        t = add(t, w.value);
        p = w.next;
    }
    Value { value: t, next: p }
}

// The excess of a window of `size` lines, and the place after its weights.
pub fn window_excess(precision: u32, limit: u64, size: u32, text: &[u8], at: usize) -> Value
    requires precision_bound { (precision ≤ 45) × (1 ≤ limit) × (limit ≤ 2 ^ 31) × (size ≤ 8192) × (at ≤ length text.now) }
    requires there { There (run (weight_item limit size) 0 size) text.now at }
    ensures answer { Whatever (run (weight_item limit size) 0 size) text.now at (λ l next. (result.value ≡ excess precision (slot_of l) size) × (result.next ≡ next)) }
{
    let t = total(limit, size, text, at);
    Value {
        value: t.value - power(precision),
        next: t.next,
    }
}
