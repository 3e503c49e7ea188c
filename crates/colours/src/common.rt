// One colour and one alpha, as in the Rust's alpha/common.rs, 8-bit half.
ghost use Rattle.std.specs.Prelude.{◌≡◌, ◌<◌, ◌≤◌};
ghost use Rattle.colours.specs.Alpha.{multiplied, quotient};

// The whole number nearest to a x b / 255, for any two bytes. Document 01 names it and `div_and_clip`; the loops here take bytes held in words instead.
pub fn mul_div_255(a: u8, b: u8) -> u8
    ensures answer { result ≡ multiplied a b }
{
    product(a as u32, b as u32) as u8
}

// The same, of bytes held in words. Dividing by 256 twice is dividing by 255 to the nearest, since 1 / 255 = 1 / 256 + 1 / (256 x 255).
pub fn product(colour: u32, alpha: u32) -> u32
    requires { (colour < 256) × (alpha < 256) }
    ensures answer { result ≡ multiplied colour alpha }
    ensures small { result < 256 }
{
    let t = colour * alpha + 128;
    (t + t / 256) / 256
}

// (v x recip + 128) / 256 rounded down, at most 255, for any recip: the product is made in 64 bits, where it cannot wrap.
pub fn div_and_clip(v: u8, recip: u32) -> u8
    ensures answer { result ≡ quotient v recip }
{
    let t = (v as u64 * recip as u64 + 128) / 256;
    if 255 < t { 255 } else { t as u8 }
}

// The same, of a byte held in a word and a reciprocal of the table: 32 bits suffice.
pub fn clipped_quotient(colour: u32, recip: u32) -> u32
    requires { (colour < 256) × (recip ≤ 65280) }
    ensures answer { result ≡ quotient colour recip }
    ensures small { result < 256 }
{
    let mut t = (colour * recip + 128) / 256;
    if 255 < t {
        t = 255;
    }
    t
}
