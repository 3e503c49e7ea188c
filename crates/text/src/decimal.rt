// Numbers in `decimal`, and `signed` ones, laid into a lent list; alone, behind a key, and as a line.
ghost use Rattle.std.specs.Prelude.{◌≡◌, ◌+◌, ◌/◌, ◌%◌, ◌^◌, nat_abs, length};
ghost use Rattle.text.specs.Text.{laid, reached, digit_count_value, decimal, signed, field_text, line_text};

use crate::bytes::{put, put_byte};

// The number of decimal digits.
fn digit_count(n: u64) -> usize
    ensures answer { result ≡ digit_count_value n }
{
    let mut m = n / 10;
    for k in 1..20 {
        if m == 0 {
            return k;
        }
        m = m / 10;
    }
    20
}

// The byte of n's digit at place p from the right.
fn digit_at(n: u64, p: usize) -> u8
    ensures answer { result ≡ 48 + n / 10 ^ p % 10 }
{
    let mut m = n;
    for _ in 0..p {
        m = m / 10;
    }
    (48 + m % 10) as u8
}

// A number in decimal.
pub fn put_number(n: u64, at: usize, out: &mut [u8]) -> usize
    ensures answer { result ≡ reached at (length (decimal n)) }
    ensures written { out.new ≡ laid out.old at (decimal n) }
{
    let k = digit_count(n);
    let mut p = at;
    for i in 0..k {
        p = put_byte(digit_at(n, k - 1 - i), p, out);
    }
    p
}

// The size of a signed number. -1 - v fits for every v below 0, where -v would not.
fn size(v: i64) -> u64
    ensures answer { result ≡ nat_abs v }
{
    if v < 0 {
        return ((-1 - v) as u64) + 1;
    }
    v as u64
}

// A number with its sign, where it is below 0.
pub fn put_signed(v: i64, at: usize, out: &mut [u8]) -> usize
    ensures answer { result ≡ reached at (length (signed v)) }
    ensures written { out.new ≡ laid out.old at (signed v) }
{
    let n = size(v);
    if v < 0 {
        let p = put_byte(b'-', at, out);
        return put_number(n, p, out);
    }
    put_number(n, at, out)
}

// A key and its number.
pub fn put_field(key: &[u8], n: u64, at: usize, out: &mut [u8]) -> usize
    ensures answer { result ≡ reached at (length (field_text key.now n)) }
    ensures written { out.new ≡ laid out.old at (field_text key.now n) }
{
    let p = put(key, at, out);
    put_number(n, p, out)
}

// A key, its number and a newline.
pub fn put_line(key: &[u8], n: u64, at: usize, out: &mut [u8]) -> usize
    ensures answer { result ≡ reached at (length (line_text key.now n)) }
    ensures written { out.new ≡ laid out.old at (line_text key.now n) }
{
    let p = put_field(key, n, at, out);
    put_byte(b'\n', p, out)
}
