// Floor, ceiling and rounding on binary64 patterns, straight from the exponent's field and the digits. From 1 to 2^52 a pattern's digits below the unit's place are
// dropped after `more` was added, and a carry runs into the exponent, as it does in counting patterns up; below 1 the answer is 0 or 1, from 2^52 on p is whole.
ghost use Rattle.std.specs.Prelude.{◌≡◌, ◌*◌, ◌%◌, ◌^◌, ◌<◌, ◌≤◌, from_bits, to_bits};
ghost use Rattle.std.specs.Float.{binary64};
ghost use Rattle.numbers.specs.Whole.{floor as floorF, ceil as ceilF, round_away as roundF};
ghost use Rattle.numbers.specs.Inner.{unit_of, cut_size_value, raised_size_value, nearest_size_value};

// The patterns of 0.5, 1 and 2^52, and the sign bit.
const HALF: u64 = 0x3fe0_0000_0000_0000;

const ONE: u64 = 0x3ff0_0000_0000_0000;

const WHOLE: u64 = 0x4330_0000_0000_0000;

const SIGN: u64 = 0x8000_0000_0000_0000;

// The unit's place among the digits of p, for p from 1 to below 2^52.
fn unit_of(p: u64) -> u64
    requires fact_1 { 0x3ff0_0000_0000_0000 ≤ p }
    requires fact_2 { p < 0x4330_0000_0000_0000 }
    ensures { result ≡ unit_of p }
{
    1 << (1075 - p / 0x10_0000_0000_0000)
}

// The size p, a pattern with no sign up to the infinity's, cut to a whole number.
fn cut_size(p: u64) -> u64
    requires { p ≤ 0x7ff0_0000_0000_0000 }
    ensures { result ≡ cut_size_value p }
{
    if p >= WHOLE {
        return p;
    }
    if p >= ONE {
        let unit = unit_of(p);
        return p / unit * unit;
    }
    0
}

// p raised to a whole number.
fn raised_size(p: u64) -> u64
    requires { p ≤ 0x7ff0_0000_0000_0000 }
    ensures { result ≡ raised_size_value p }
{
    if p >= WHOLE {
        return p;
    }
    if p >= ONE {
        let unit = unit_of(p);
        return (p + (unit - 1)) / unit * unit;
    }
    if p == 0 { 0 } else { ONE }
}

// p to the nearest whole number, a half going up.
fn nearest_size(p: u64) -> u64
    requires { p ≤ 0x7ff0_0000_0000_0000 }
    ensures { result ≡ nearest_size_value p }
{
    if p >= WHOLE {
        return p;
    }
    if p >= ONE {
        let unit = unit_of(p);
        return (p + unit / 2) / unit * unit;
    }
    if p < HALF { 0 } else { ONE }
}

// The pattern of the floor of the value of b, any pattern but a NaN's: a size with a minus sign is raised.
pub(crate) fn floor_pattern(b: u64) -> u64
    requires { b % 2 ^ 63 ≤ 0x7ff0_0000_0000_0000 }
    ensures { result ≡ to_bits binary64 (floorF binary64 (from_bits binary64 b)) }
{
    let p = b % SIGN;
    if b < SIGN {
        return cut_size(p);
    }
    raised_size(p) + SIGN
}

// The pattern of the ceiling: the two sizes exchanged.
pub(crate) fn ceil_pattern(b: u64) -> u64
    requires { b % 2 ^ 63 ≤ 0x7ff0_0000_0000_0000 }
    ensures { result ≡ to_bits binary64 (ceilF binary64 (from_bits binary64 b)) }
{
    let p = b % SIGN;
    if b < SIGN {
        return raised_size(p);
    }
    cut_size(p) + SIGN
}

// The pattern of the nearest whole number, a half going away from zero, whatever the sign.
pub(crate) fn round_pattern(b: u64) -> u64
    requires { b % 2 ^ 63 ≤ 0x7ff0_0000_0000_0000 }
    ensures { result ≡ to_bits binary64 (roundF binary64 (from_bits binary64 b)) }
{
    let y = nearest_size(b % SIGN);
    if b < SIGN {
        return y;
    }
    y + SIGN
}
