// Sums and roundings of one sample: i64 arithmetic that cannot wrap, then the shift and the clip.
ghost use Rattle.std.specs.Prelude.{◌≡◌, ◌-◌, ◌^◌, ◌<◌, ◌≤◌, pos, nat_abs, ◌+ℤ◌, ◌*ℤ◌};
ghost use Rattle.std.specs.Int.Signed.{shr_z};
ghost use Rattle.integers.specs.Sums.{clipped};

use clips::clip16;

// A weight in 64 bits.
fn wide32(x: i32) -> i64
    ensures { result ≡ x }
{
    x as i64
}

// A sample in 64 bits.
fn wide16(s: u16) -> i64
    ensures { result ≡ pos s }
{
    s as i64
}

// One weight times one sample, added; for a sum up to 2^62 in size.
pub fn step(acc: i64, w: i32, s: u16) -> i64
    requires { nat_abs acc ≤ 2 ^ 62 }
    ensures answer { result ≡ acc +ℤ w *ℤ pos s }
{
    acc + wide32(w) * wide16(s)
}

// Half of 2^p, for p from 1 to 45. The sums start from it, so that the shift rounds to the nearest.
pub fn half(p: u32) -> i64
    requires { (1 ≤ p) × (p ≤ 45) }
    ensures answer { result ≡ pos (2 ^ (p - 1)) }
{
    1i64 << (p - 1)
}

// v divided by 2^p, rounding down: the shift copies the sign, so a negative sum does not round toward zero.
pub fn shift(v: i64, p: u32) -> i64
    requires { p < 64 }
    ensures answer { result ≡ shr_z v (2 ^ p) }
{
    v >> p
}

// v divided by 2^p and clipped.
pub(crate) fn clip(v: i64, p: u32) -> u16
    requires { p < 64 }
    ensures { result ≡ clipped 65535 (shr_z v (2 ^ p)) }
{
    clip16(shift(v, p))
}
