// An edge given by its bits: `0x` and 16 hexadecimal digits.
ghost use Rattle.std.specs.Prelude.{◌≡◌, true, from_bits};
ghost use Rattle.std.specs.Float.{binary64};
ghost use Rattle.crop_edges.specs.Edge.{is_pattern_value, pattern_of};

use crate::digits::continued;
use numerals::all_digits;

// Whether the text has the form of a pattern.
pub(crate) fn is_pattern(text: &[u8]) -> bool
    ensures answer { result ≡ is_pattern_value text.now }
{
    if text.len() != 18 {
        return false;
    }
    if (text[0] != b'0') | (text[1] != b'x') {
        return false;
    }
    all_digits(16, text, 2, 16)
}

// The double of a pattern; a NaN for any NaN's.
fn double(bits: u64) -> f64
    ensures answer { result ≡ from_bits binary64 bits }
{
    if bits % 0x8000_0000_0000_0000 > 0x7ff0_0000_0000_0000 {
        return 0.0 / 0.0;
    }
    f64::from_bits(bits)
}

// The double that the pattern is of.
pub(crate) fn of_pattern(text: &[u8]) -> f64
    requires { is_pattern_value text.now ≡ true }
    ensures answer { result ≡ from_bits binary64 (pattern_of text.now) }
{
    double(continued(16, text, 2, 16, 0))
}
