// Whether a window has an offer.
ghost use Rattle.std.specs.Prelude.{◌≡◌, ◌+◌, ◌≤◌, length};
ghost use Rattle.orders.specs.Count.{count};
ghost use Rattle.excesses.specs.Slots.{slot_from};
ghost use Rattle.offers.specs.Own.{movable, no_repair};

use crate::steps::{can_go, way};
use windows::Weight;

// How many of n weights from slot a on can go the way of the excess e.
fn movables<W: Weight>(limit: u32, e: i64, weights: &[W], a: usize, n: usize) -> usize
    requires { (limit ≤ 31) × (a + n ≤ length weights.now) }
    ensures answer { result ≡ count (movable limit e (slot_from (W.values weights.now) a)) n }
{
    let s = way(e);
    let mut c: usize = 0;
    for weight in &weights[a..a + n] {
        c += usize::from(can_go(limit, weight.number(), s));
    }
    c
}

// Whether they are fewer than the excess asks.
pub fn window_lacks<W: Weight>(limit: u32, e: i64, weights: &[W], a: usize, n: usize) -> bool
    requires { (limit ≤ 31) × (a + n ≤ length weights.now) }
    ensures answer { result ≡ no_repair limit e (slot_from (W.values weights.now) a) n }
{
    (movables(limit, e, weights, a, n) as u64) < e.unsigned_abs()
}
