// The helpers on bit patterns, for every pattern. A NaN gives the quiet NaN with sign and payload 0, which is `to_bits` of the model's NaN.
ghost use Rattle.std.specs.Prelude.{◌≡◌, ◌%◌, ◌^◌, from_bits, to_bits};
ghost use Rattle.std.specs.Float.{binary32, binary64};
ghost use Rattle.numbers.specs.Whole.{floor as floorF, ceil as ceilF, round_away as roundF};
ghost use Rattle.numbers.specs.Narrowed.{narrowed_bits};

use super::narrowing::narrow_size;
use super::whole::{ceil_pattern, floor_pattern, round_pattern};
use crate::NarrowedBits;

// The sign bit, the infinity and the quiet NaN of binary64.
const SIGN: u64 = 0x8000_0000_0000_0000;

const INFINITY: u64 = 0x7ff0_0000_0000_0000;

const QUIET_NAN: u64 = 0x7ff8_0000_0000_0000;

// The pattern with its sign bit cleared, a NaN's too: the payload stays.
pub fn abs_bits(b: u64) -> u64
    ensures answer { result ≡ b % 2 ^ 63 }
{
    b % SIGN
}

// The pattern of the floor of the value that b stands for.
pub fn floor_bits(b: u64) -> u64
    ensures answer { result ≡ to_bits binary64 (floorF binary64 (from_bits binary64 b)) }
{
    if b % SIGN > INFINITY {
        return QUIET_NAN;
    }
    floor_pattern(b)
}

// The pattern of the ceiling.
pub fn ceil_bits(b: u64) -> u64
    ensures answer { result ≡ to_bits binary64 (ceilF binary64 (from_bits binary64 b)) }
{
    if b % SIGN > INFINITY {
        return QUIET_NAN;
    }
    ceil_pattern(b)
}

// The pattern of the nearest whole number, a half going away from zero.
pub fn round_bits(b: u64) -> u64
    ensures answer { result ≡ to_bits binary64 (roundF binary64 (from_bits binary64 b)) }
{
    if b % SIGN > INFINITY {
        return QUIET_NAN;
    }
    round_pattern(b)
}

// The binary64 pattern of the value that the binary32 pattern b stands for.
pub fn widen_bits(b: u32) -> u64
    ensures answer { result ≡ to_bits binary64 (from_bits binary32 b) }
{
    if b % 0x8000_0000 > 0x7f80_0000 {
        return QUIET_NAN;
    }
    f64::to_bits(f32::from_bits(b) as f64)
}

// The binary32 pattern of the narrowed value, and whether it is an infinity: the size is narrowed, and the sign moves from bit 63 to bit 31.
pub fn narrow_bits(b: u64) -> NarrowedBits
    ensures answer { result ≡ narrowed_bits b }
{
    let p = b % SIGN;
    if p > INFINITY {
        return NarrowedBits {
            value: 0x7fc0_0000,
            infinite: false,
        };
    }
    let y = narrow_size(p) as u32;
    let infinite = y == 0x7f80_0000;
    if b < SIGN {
        return NarrowedBits {
            value: y,
            infinite: infinite,
        };
    }
    NarrowedBits {
        value: y + 0x8000_0000,
        infinite: infinite,
    }
}
