// Sums and roundings of one sample: i32 arithmetic, then the shift and the clip. The casts stand in functions of their own, so that the compiler sees products of 16 bits.
ghost use Rattle.std.specs.Prelude.{◌≡◌, ◌+◌, ◌*◌, ◌-◌, ◌^◌, ◌<◌, ◌≤◌, pos, nat_abs, ◌+ℤ◌, ◌*ℤ◌};
ghost use Rattle.std.specs.Int.Signed.{shr_z};
ghost use Rattle.integers.specs.Sums.{clipped};

use clips::clamp8;

// A weight in 32 bits.
fn wide16(x: i16) -> i32
    ensures { result ≡ x }
{
    x as i32
}

// A sample in 32 bits.
fn wide8(s: u8) -> i32
    ensures { result ≡ pos s }
{
    s as i32
}

// One weight times one sample, added, where the sum has room for the weight times the largest sample.
pub(crate) fn step(acc: i32, w: i16, s: u8) -> i32
    requires { nat_abs acc + 255 * nat_abs w ≤ 2147483647 }
    ensures { result ≡ acc +ℤ w *ℤ pos s }
{
    acc + wide16(w) * wide8(s)
}

// Half of 2^p, for p from 1 to 21. The sums start from it, so that the shift rounds to the nearest.
pub(crate) fn half(p: u32) -> i32
    requires { (1 ≤ p) × (p ≤ 21) }
    ensures { result ≡ pos (2 ^ (p - 1)) }
{
    1i32 << (p - 1)
}

// v divided by 2^p, rounding down: the shift copies the sign, so a negative sum does not round toward zero.
fn shift(v: i32, p: u32) -> i32
    requires { p < 32 }
    ensures { result ≡ shr_z v (2 ^ p) }
{
    v >> p
}

// v divided by 2^p and clipped.
pub(crate) fn clip(v: i32, p: u32) -> u8
    requires { p < 32 }
    ensures { result ≡ clipped 255 (shr_z v (2 ^ p)) }
{
    clamp8(shift(v, p))
}
