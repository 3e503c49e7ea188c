// The judge of the weights that are offered for one window.
ghost use Rattle.std.specs.Prelude.{◌≡◌, not, ◌||◌, ◌+◌, ◌^◌, ◌≤◌, ltb, nat_abs, length};
ghost use Rattle.lists.specs.Tab.{any};
ghost use Rattle.integers.specs.Sums.{distance};
ghost use Rattle.excesses.specs.Slots.{slot_from};
ghost use Rattle.offers.specs.Repair.{in_type_value, bad_weight, bad_repair};

use crate::steps::in_type;
use excesses::excess_of;
use windows::Weight;

// Whether the weight v may not stand for w: it is farther than 1, or outside the type.
fn misfits(limit: u32, w: i64, v: i64) -> bool
    requires { (limit ≤ 31) × (nat_abs w ≤ 2 ^ 31) × (nat_abs v ≤ 2 ^ 31) }
    ensures answer { result ≡ (ltb 1 (distance v w) || not (in_type_value limit v)) }
{
    let d = v - w;
    let inside = in_type(limit, v);
    ((d < -1) | (1 < d)) | !inside
}

// Whether one of n offered weights from slot a on may not stand for the stored one. Every weight is looked at, so that the compiler puts several side by side.
fn some_misfit<W: Weight>(limit: u32, weights: &[W], offered: &[W], a: usize, n: usize) -> bool
    requires limit_bound { limit ≤ 31 }
    requires n_in_bounds { (a + n ≤ length weights.now) × (a + n ≤ length offered.now) }
    ensures answer { result ≡ any n (bad_weight limit (slot_from (W.values weights.now) a) (slot_from (W.values offered.now) a)) }
{
    let mut bad = false;
    for k in 0..n {
        let w = weights[a + k].number();
        let v = offered[a + k].number();
        bad = bad | misfits(limit, w, v);
    }
    bad
}

// Whether they do not repair the window: one of them may not stand, or they have an excess.
pub fn window_refused<W: Weight>(
    limit: u32,
    p: u32,
    weights: &[W],
    offered: &[W],
    a: usize,
    n: usize,
) -> bool
    requires limit_bound { (limit ≤ 31) × (p ≤ 45) × (n ≤ 8192) }
    requires n_in_bounds { (a + n ≤ length weights.now) × (a + n ≤ length offered.now) }
    ensures answer { result ≡ bad_repair limit p (slot_from (W.values weights.now) a) (slot_from (W.values offered.now) a) n }
{
    let bad = some_misfit(limit, weights, offered, a, n);
    let e = excess_of(p, offered, a, n);
    bad | ((e < 0) | (0 < e))
}
