// A pixel as a word of 32 bits, its first component lowest. `load4` and `store4` are functions of their own so that each becomes one
// access of the processor; in a pixel all components are read before the first is written.
ghost use Rattle.std.specs.Prelude.{◌≡◌, ◌+◌, ◌/◌, ◌<◌, ◌≤◌, length};
ghost use Rattle.colours.specs.Alpha.{multiplied, quotient};
ghost use Rattle.alpha.specs.Words.{word_at, on_colours, stored_word};

use colours::{clipped_quotient, product};

fn byte(x: u8) -> u32
    ensures answer { result ≡ x }
    ensures small { result < 256 }
{
    x as u32
}

// The pixel whose first component is at i.
pub(crate) fn load4(s: &[u8], i: usize) -> u32
    requires { i + 4 ≤ length s.now }
    ensures answer { result ≡ word_at s.now i }
{
    byte(s[i]) + byte(s[i + 1]) * 256 + byte(s[i + 2]) * 65536 + byte(s[i + 3]) * 16777216
}

// The pixel x written with its first component at i.
pub(crate) fn store4(s: &mut [u8], i: usize, x: u32)
    requires { i + 4 ≤ length s.old }
    ensures written { s.new ≡ stored_word s.old i x }
{
    s[i] = (x % 256) as u8;
    s[i + 1] = (x / 256 % 256) as u8;
    s[i + 2] = (x / 65536 % 256) as u8;
    s[i + 3] = (x / 16777216) as u8;
}

// The pixel x with its colours multiplied by its alpha.
pub(crate) fn multiplied_pixel(x: u32) -> u32
    ensures answer { result ≡ on_colours (λ c. multiplied c (x / 16777216)) x }
{
    let a = x / 16777216;
    product(x % 256, a)
        + product(x / 256 % 256, a) * 256
        + product(x / 65536 % 256, a) * 65536
        + a * 16777216
}

// The pixel x with its colours divided by the alpha whose reciprocal is recip.
pub(crate) fn divided_pixel(x: u32, recip: u32) -> u32
    requires { recip ≤ 65280 }
    ensures answer { result ≡ on_colours (λ c. quotient c recip) x }
{
    clipped_quotient(x % 256, recip)
        + clipped_quotient(x / 256 % 256, recip) * 256
        + clipped_quotient(x / 65536 % 256, recip) * 65536
        + x / 16777216 * 16777216
}
