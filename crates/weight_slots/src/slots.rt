// The weights of a set that was judged, written to a store.
ghost use Rattle.std.specs.Prelude.{◌≡◌, ◌*◌, ◌<◌, ◌≤◌, false, not, ◌&&◌, length, pos, if◌then◌else◌};
ghost use Rattle.lists.specs.Tab.{any, front};
ghost use Rattle.weight_precision.specs.Precision.{scaled as scaledF, integer};
ghost use Rattle.weight_precision.specs.Weights.{holds, leaves};
ghost use Rattle.weight_slots.specs.Slots.{slot_at};

use weight_precision::{in_use, scaled};
use windows::Weight;

// Every slot of the set: the integer weight where it is in use, else 0.
pub fn write<W: Weight>(p: u32, window_size: u32, weights: &[f64], sizes: &[u32], out: &mut [W])
    requires fact_1 { p < 46 }
    requires fact_2 { 0 < window_size }
    requires fact_3 { length weights.now ≡ length sizes.now * window_size }
    requires fact_4 { length weights.now ≤ length out.old }
    requires fact_5 { any (length weights.now) (leaves W.STORE p window_size weights.now sizes.now) ≡ false }
    ensures { W.values out.new ≡ front (length weights.now) (slot_at W.STORE p window_size weights.now sizes.now) (W.values out.old) }
{
    for (k, w) in weights.iter().enumerate() {
        out[k] = slot(p, *w, in_use(k, window_size, sizes));
    }
}

// The integer weight of one slot.
fn slot<W: Weight>(p: u32, w: f64, used: bool) -> W
    requires fact_1 { p < 46 }
    requires fact_2 { used && not (holds W.STORE (scaledF p w)) ≡ false }
    ensures { W.value result ≡ (if used then integer W.STORE p w else pos 0) }
{
    if used {
        return W::from_number(std::num::truncating_f64_to_i64(scaled(w, p)));
    }
    W::from_number(0)
}
