// Single weights, in 64 bits, where nothing wraps.
ghost use Rattle.std.specs.Prelude.{◌≡◌, cond, ◌+◌, ◌^◌, ◌≤◌, pos, nat_abs, ◌+ℤ◌};
ghost use Rattle.offers.specs.Repair.{in_type_value};
ghost use Rattle.offers.specs.Own.{way as way_of};

use excesses::{add, power};

// The step that an excess asks for: down where the total is too large, up where it is too small.
pub fn way(e: i64) -> i64
    ensures answer { result ≡ way_of e }
{
    -e.signum()
}

// Whether a number is inside the type of `limit` bits and a sign.
pub(crate) fn in_type(limit: u32, v: i64) -> bool
    requires { (limit ≤ 31) × (nat_abs v ≤ 2 ^ 46) }
    ensures answer { result ≡ in_type_value limit v }
{
    let end = power(limit);
    (-1 - v < end) & (v < end)
}

// Whether a weight that goes by s stays inside it.
pub fn can_go(limit: u32, w: i64, s: i64) -> bool
    requires { (limit ≤ 31) × (nat_abs w ≤ 2 ^ 31) × (nat_abs s ≤ 1) }
    ensures answer { result ≡ in_type_value limit (w +ℤ s) }
{
    in_type(limit, add(w, s))
}

// The weight of a slot of our own offer: gone by s where it goes, and 0 in an idle slot.
pub fn slot(w: i64, s: i64, goes: bool, used: bool) -> i64
    requires { (nat_abs w ≤ 2 ^ 31) × (nat_abs s ≤ 1) }
    ensures answer { result ≡ cond used (cond goes (w +ℤ s) w) (pos 0) }
{
    if !used {
        return 0;
    }
    if goes {
        return add(w, s);
    }
    w
}
