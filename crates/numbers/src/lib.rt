// `numbers`: document 01's number helpers. On values: `finite`, `abs`, `floor`, `ceil`, `round` (half away from zero), `widen` (f32 to f64) and
// `narrow` (f64 to f32, ties to even; it says too whether the result is infinite). The same on bit patterns, `abs_bits` and so on, where every NaN gives the quiet NaN with sign and payload 0.
// The roundings work on the pattern of the size |x| (`whole`) and put the sign back, so that a zero result has the argument's sign.
#![tactic(auto)]

mod bits;
mod narrowing;
mod whole;

ghost use Rattle.std.specs.Prelude.{◌≡◌};
ghost use Rattle.std.specs.Float.{binary64};
ghost use Rattle.floats.specs.Doubles.{is_finite};
ghost use Rattle.numbers.specs.Whole.{abs as absF, floor as floorF, ceil as ceilF, round_away as roundF};
ghost use Rattle.numbers.specs.Narrowed.{narrowed_of};

pub use bits::{abs_bits, ceil_bits, floor_bits, narrow_bits, round_bits, widen_bits};

// A narrowed value, and whether it is an infinity.
#[derive(Drop)]
pub struct Narrowed {
    pub value: f32,
    pub infinite: bool,
}

// The same of patterns.
#[derive(Drop)]
pub struct NarrowedBits {
    pub value: u32,
    pub infinite: bool,
}

// Whether x is neither NaN nor infinite. A NaN fails both comparisons.
pub fn finite(x: f64) -> bool
    ensures answer { result ≡ is_finite x }
{
    let inf = 1.0 / 0.0;
    (-inf < x) & (x < inf)
}

// |x|: the sign bit cleared.
pub fn abs(x: f64) -> f64
    ensures answer { result ≡ absF x }
{
    if x != x {
        return 0.0 / 0.0;
    }
    f64::from_bits(f64::to_bits(x) % 0x8000_0000_0000_0000)
}

// The largest whole number that is at most x.
pub fn floor(x: f64) -> f64
    ensures answer { result ≡ floorF binary64 x }
{
    if x != x {
        return 0.0 / 0.0;
    }
    f64::from_bits(whole::floor_pattern(f64::to_bits(x)))
}

// The smallest whole number that is at least x.
pub fn ceil(x: f64) -> f64
    ensures answer { result ≡ ceilF binary64 x }
{
    if x != x {
        return 0.0 / 0.0;
    }
    f64::from_bits(whole::ceil_pattern(f64::to_bits(x)))
}

// The whole number nearest to x, a half going away from zero.
pub fn round(x: f64) -> f64
    ensures answer { result ≡ roundF binary64 x }
{
    if x != x {
        return 0.0 / 0.0;
    }
    f64::from_bits(whole::round_pattern(f64::to_bits(x)))
}

// The binary32 value nearest to x, a tie to the even one, an infinity where x is too large, and whether it is an infinity. Document 01 names it; no crate here calls
// it, since a value has one NaN and `ask` and the C interface speak of patterns (`narrow_bits`).
pub fn narrow(x: f64) -> Narrowed
    ensures answer { result ≡ narrowed_of x }
{
    if x != x {
        return Narrowed {
            value: 0.0 / 0.0,
            infinite: false,
        };
    }
    let n = bits::narrow_bits(f64::to_bits(x));
    Narrowed {
        value: f32::from_bits(n.value),
        infinite: n.infinite,
    }
}

// The same value as a double: every binary32 value is one. Document 01 names it; no crate here calls it, as for `narrow`.
pub fn widen(x: f32) -> f64
    ensures answer { result ≡ x }
{
    std::num::f32_to_f64_with_nan(x)
}
