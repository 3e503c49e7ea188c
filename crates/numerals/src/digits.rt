// Digits in a base of up to 16, and the whole numbers that they write.
ghost use Rattle.std.specs.Prelude.{Ok, Err, ◌≡◌, cond, ◌+◌, ◌*◌, ◌<◌, ltb, get_or};
ghost use Rattle.numerals.specs.declared.NumberError.TheVariants.{TooLarge};
ghost use Rattle.numerals.specs.Digits.{digit_of, figure, digits, numeral, number_of};

use crate::NumberError;

// The byte k places past a, 0 where the text ends before it.
pub(crate) fn byte_at(text: &[u8], a: usize, k: usize) -> u8
    ensures answer { result ≡ get_or text.now (a + k) 0 }
{
    let n = text.len();
    if n <= a {
        return 0;
    }
    if n - a <= k {
        return 0;
    }
    text[a + k]
}

// The digit that a byte stands for, 255 for a byte that is no digit. Capital letters are no digits.
pub fn digit(b: u8) -> u8
    ensures answer { result ≡ digit_of b }
{
    if b < b'0' {
        return 255;
    }
    if b <= b'9' {
        return b - b'0';
    }
    if b < b'a' {
        return 255;
    }
    if b <= b'f' {
        return b - b'a' + 10;
    }
    255
}

// The same as a part of a number: 0 for a byte that is no digit of the base.
pub fn figure(base: u64, b: u8) -> u64
    ensures answer { result ≡ figure base b }
{
    let d = digit(b) as u64;
    if d < base { d } else { 0 }
}

// Whether n bytes from the place a on are digits of the base.
pub fn all_digits(base: u64, text: &[u8], a: usize, n: usize) -> bool
    ensures answer { result ≡ digits base text.now a n }
{
    for k in 0..n {
        if base <= digit(byte_at(text, a, k)) as u64 {
            return false;
        }
    }
    true
}

// Whether v with the digit d behind it is above `most`.
fn passes(v: u64, base: u64, d: u64, most: u64) -> bool
    requires { 0 < base }
    ensures answer { result ≡ ltb most (v * base + d) }
{
    if most < d {
        return true;
    }
    (most - d) / base < v
}

// The number of n digits, or that it is above `most`.
fn bounded(base: u64, text: &[u8], a: usize, n: usize, most: u64) -> Result<u64, NumberError>
    requires { 0 < base }
    ensures answer { result ≡ cond (ltb most (numeral base text.now a 0 n)) (Err TooLarge) (Ok (numeral base text.now a 0 n)) }
{
    let mut sum: u64 = 0;
    for k in 0..n {
        let d = figure(base, byte_at(text, a, k));
        if passes(sum, base, d, most) {
            return Err(NumberError::TooLarge);
        }
        sum = sum * base + d;
    }
    Ok(sum)
}

// The number that n bytes from the place a on write in the base, where it is at most `most`.
pub fn read_number(
    base: u64,
    text: &[u8],
    a: usize,
    n: usize,
    most: u64,
) -> Result<u64, NumberError>
    ensures answer { result ≡ number_of base text.now a n most }
{
    if n == 0 {
        return Err(NumberError::Malformed);
    }
    if !all_digits(base, text, a, n) {
        return Err(NumberError::Malformed);
    }
    if base == 0 {
        return Err(NumberError::Malformed);
    }
    bounded(base, text, a, n, most)
}
