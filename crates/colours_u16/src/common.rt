// One colour and one alpha, as in the Rust's alpha/common.rs, 16-bit half.
ghost use Rattle.std.specs.Prelude.{◌≡◌, min};
ghost use Rattle.colours_u16.specs.Alpha.{multiplied, reciprocal as reciprocal_of, divided};

// The whole number nearest to a x b / 65535. Dividing by 65536 twice is dividing by 65535 to the nearest, since 1 / 65535 = 1 / 65536 + 1 / (65536 x 65535).
// No sum passes 32 bits: 65535 x 65535 + 32768 + 65535 is below 2^32.
pub fn mul_div_65535(a: u16, b: u16) -> u16
    ensures answer { result ≡ multiplied a b }
{
    let t = a as u32 * b as u32 + 32768;
    ((t + t / 65536) / 65536) as u16
}

// 65535 x 2^33 / alpha, a half going up; 0 for alpha 0. The number is 2 x 65535 x 2^33. An opaque pixel costs no division.
pub fn reciprocal(alpha: u16) -> u64
    ensures answer { result ≡ reciprocal_of alpha }
{
    if alpha == 0 {
        return 0;
    }
    if alpha == 65535 {
        return 8589934592;
    }
    (1125882726973440 + alpha as u64) / (2 * alpha as u64)
}

// The lesser of the two.
fn held(colour: u16, alpha: u16) -> u16
    ensures answer { result ≡ min colour alpha }
{
    if alpha < colour { alpha } else { colour }
}

// The colour divided by the alpha whose reciprocal is recip. A colour at its alpha or above is held to it, which gives 65535 as the cap would, and 0 at
// alpha 0; so no product passes 2^50, where the Rust's passes 2^64 at 32769 by 1, and there is no branch.
pub fn div_and_clip16(colour: u16, alpha: u16, recip: u64) -> u16
    requires { recip ≡ reciprocal_of alpha }
    ensures answer { result ≡ divided colour alpha }
{
    ((held(colour, alpha) as u64 * recip + 4294967296) / 8589934592) as u16
}
