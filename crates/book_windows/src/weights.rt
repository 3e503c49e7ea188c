// The signs of a window's weights.
ghost use Rattle.std.specs.Prelude.{◌≡◌, ◌^◌, ◌≤◌, length};
ghost use Rattle.orders.specs.Negative.{some_negative_value};
ghost use Rattle.scan.specs.Forms.{run};
ghost use Rattle.sheet_scan.specs.Lines.{weight_item};
ghost use Rattle.sheet_scan.specs.Whole.{There, Whatever, slot_of};

use excess_scan::weight;

// Whether one of the weights of a window of `size` lines is negative.
pub(crate) fn some_negative(limit: u64, size: u32, text: &[u8], at: usize) -> bool
    requires le_limit { (1 ≤ limit) × (limit ≤ 2 ^ 31) × (at ≤ length text.now) }
    requires there { There (run (weight_item limit size) 0 size) text.now at }
    ensures answer { Whatever (run (weight_item limit size) 0 size) text.now at (λ l next. result ≡ some_negative_value (slot_of l) size) }
{
    let mut some = false;
    let mut p = at;
    for j in 0..size {
        let w = weight(limit, size, j, text, p);
        some = some | (w.value < 0);
        p = w.next;
    }
    some
}
