// Whether a set's weights serve in a store: No. 9.
ghost use Rattle.std.specs.Prelude.{◌≡◌, ◌-◌, ◌*◌, ◌^◌, ◌<◌, ◌≤◌, length};
ghost use Rattle.std.specs.Float.Ieee.{neg};
ghost use Rattle.lists.specs.Tab.{any};
ghost use Rattle.windows.specs.Set.{in_use_value};
ghost use Rattle.weight_precision.specs.Weights.{holds as holdsF, not_finite_value, leaves, unstorable as unstorableF};
ghost use Rattle.weight_precision.specs.Bounds.{and_half, outside};

use crate::finding::{power, scaled};
use numbers::finite;
use windows::Store;

// Whether a weight is NaN or infinite.
pub fn some_not_finite(weights: &[f64]) -> bool
    ensures { result ≡ any (length weights.now) (not_finite_value weights.now) }
{
    let mut bad = false;
    for weight in weights {
        bad = bad | !finite(*weight);
    }
    bad
}

// Whether the precision is below 4, or a weight in use leaves its type at it. Which slots are in use, and what their weights round to, is asked only where some
// weight is not inside the type by comparison alone; in a built set none is outside.
pub fn unstorable(store: Store, p: u32, window_size: u32, weights: &[f64], sizes: &[u32]) -> bool
    requires fact_1 { store.limit ≤ 51 }
    requires fact_2 { p < 46 }
    requires fact_3 { 0 < window_size }
    requires fact_4 { length weights.now ≡ length sizes.now * window_size }
    ensures { result ≡ unstorableF store p window_size weights.now sizes.now }
{
    if p < 4 {
        return true;
    }
    if !some_outside(least(store.limit), most(store.limit), power(p), weights) {
        return false;
    }
    some_leaves(store, p, window_size, weights, sizes)
}

// -(2^limit + 1/2): what is above it rounds to -2^limit or more.
fn least(limit: u32) -> f64
    requires { limit ≤ 51 }
    ensures { result ≡ neg (and_half (2 ^ limit)) }
{
    -(power(limit) + 0.5)
}

// 2^limit - 1/2: what is below it rounds to 2^limit - 1 or less.
fn most(limit: u32) -> f64
    requires { limit ≤ 51 }
    ensures { result ≡ and_half (2 ^ limit - 1) }
{
    let one: u64 = 1;
    let end = one << limit;
    std::num::nearest_u64_to_f64(end - 1) + 0.5
}

// Whether a weight times `unit` is not between the bounds. Nothing is rounded and no slot is looked up, so that the compiler compares several weights at a time.
fn some_outside(low: f64, high: f64, unit: f64, weights: &[f64]) -> bool
    ensures { result ≡ any (length weights.now) (outside low high unit weights.now) }
{
    let mut bad = false;
    for weight in weights {
        let x = *weight * unit;
        bad = bad | !((low < x) & (x < high));
    }
    bad
}

// Whether a weight in use leaves its type at the precision.
fn some_leaves(store: Store, p: u32, window_size: u32, weights: &[f64], sizes: &[u32]) -> bool
    requires fact_1 { store.limit < 64 }
    requires fact_2 { p < 46 }
    requires fact_3 { 0 < window_size }
    requires fact_4 { length weights.now ≡ length sizes.now * window_size }
    ensures { result ≡ any (length weights.now) (leaves store p window_size weights.now sizes.now) }
{
    let mut bad = false;
    for (k, weight) in weights.iter().enumerate() {
        bad = bad | (in_use(k, window_size, sizes) & !holds(store, scaled(*weight, p)));
    }
    bad
}

// Whether slot k is in use.
pub fn in_use(k: usize, window_size: u32, sizes: &[u32]) -> bool
    requires fact_1 { 0 < window_size }
    requires fact_2 { k < length sizes.now * window_size }
    ensures { result ≡ in_use_value window_size sizes.now k }
{
    let wide = window_size as usize;
    k % wide < (sizes[k / wide] as usize)
}

// Whether a whole number is one of the store's type.
fn holds(store: Store, x: f64) -> bool
    requires { store.limit < 64 }
    ensures { result ≡ holdsF store x }
{
    let end = power(store.limit);
    !(x < -end) & (x < end)
}
