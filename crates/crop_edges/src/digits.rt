// The whole numbers that digits in a base of up to 16 write.
ghost use Rattle.std.specs.Prelude.{◌≡◌, ◌+◌, ◌*◌, ◌^◌, ◌<◌, ◌≤◌, length};
ghost use Rattle.numerals.specs.Digits.{numeral};

use numerals::figure;

// The whole number v continued by n digits from the place a on.
pub(crate) fn continued(base: u64, text: &[u8], a: usize, n: usize, v: u64) -> u64
    requires { (a + n ≤ length text.now) × (0 < base) × ((v + 1) * base ^ n ≤ 2 ^ 64) }
    ensures answer { result ≡ numeral base text.now a v n }
{
    let mut sum = v;
    for k in 0..n {
        sum = sum * base + figure(base, text[a + k]);
    }
    sum
}
