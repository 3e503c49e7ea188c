// The slots of one window of our own offer.
ghost use Rattle.std.specs.Prelude.{◌≡◌, ◌+◌, ◌≤◌, length};
ghost use Rattle.lists.specs.Tab.{tab};
ghost use Rattle.excesses.specs.Slots.{slot_from};
ghost use Rattle.offers.specs.Own.{offered_slot};

use offers::{can_go, slot, way};
use windows::Weight;

// n weights from slot a on, moved as the excess e asks, and 0 in the idle slots.
pub fn offer_window<W: Weight>(e: i64, weights: &[W], a: usize, n: usize, row: &mut [W])
    requires { a + length row.old ≤ length weights.now }
    ensures written { W.values row.new ≡ tab 0 (length row.old) (offered_slot W.STORE.limit e (slot_from (W.values weights.now) a) n) }
{
    let s = way(e);
    let asked = e.unsigned_abs();
    let mut seen: u64 = 0;
    for k in 0..row.len() {
        let w = weights[a + k].number();
        let can = can_go(W::STORE.limit, w, s);
        row[k] = W::from_number(slot(w, s, can & (seen < asked), k < n));
        seen += u64::from(can);
    }
}
