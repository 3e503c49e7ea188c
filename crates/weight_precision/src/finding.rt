// The search for a set's precision, and a weight at a precision.
ghost use Rattle.std.specs.Prelude.{◌≡◌, ◌<◌, ◌≤◌};
ghost use Rattle.weight_precision.specs.Precision.{power as powerF, larger as largerF, largest as largestF, scaled as scaledF, precision as precisionF, reaches};

use windows::Store;

// The precision of the weights in a store.
pub fn precision(weights: &[f64], store: Store) -> u32
    requires fact_1 { 1 ≤ store.bits }
    requires fact_2 { store.bits ≤ 46 }
    requires fact_3 { store.limit < 64 }
    ensures { result ≡ precisionF store weights.now }
{
    let w = largest(weights);
    for p in 0..store.bits - 1 {
        if reach(store.limit, w, p) {
            return p;
        }
    }
    store.bits - 1
}

// Whether the weight is at least 2^limit at the precision after p. The product is rounded before it is compared: 65535 / 65536 has precision 14.
fn reach(limit: u32, w: f64, p: u32) -> bool
    requires fact_1 { limit < 64 }
    requires fact_2 { p < 46 }
    ensures { result ≡ reaches limit w p }
{
    power(limit) <= scaled(w, p + 1)
}

// The largest weight, 0 where there is none.
fn largest(weights: &[f64]) -> f64
    ensures { result ≡ largestF weights.now }
{
    if weights.is_empty() {
        return 0.0;
    }
    let mut best = weights[0];
    for weight in weights {
        best = larger(best, *weight);
    }
    best
}

// The larger of two doubles.
fn larger(x: f64, y: f64) -> f64
    ensures { result ≡ largerF x y }
{
    if y < x { x } else { y }
}

// A weight times 2^p, rounded half away from zero.
pub fn scaled(w: f64, p: u32) -> f64
    requires { p < 64 }
    ensures { result ≡ scaledF p w }
{
    numbers::round(w * power(p))
}

// 2^p.
pub(crate) fn power(p: u32) -> f64
    requires { p < 64 }
    ensures { result ≡ powerF p }
{
    let one: u64 = 1;
    std::num::nearest_u64_to_f64(one << p)
}
