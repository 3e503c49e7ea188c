// A sum in doubles made a sample: cut to the range, divided by 2^p and rounded in one addition, which rounds to the nearest (docs/ARCHIVE.md says what another
// rounding mode of the processor would do).
ghost use Rattle.std.specs.Prelude.{◌≡◌, not, ℕ, ◌+◌, ◌*◌, ◌%◌, ◌^◌, ◌<◌, ◌≤◌, T, length, get_or};
ghost use Rattle.std.specs.Float.{binary64, nan};
ghost use Rattle.std.specs.Float.Ieee.{of_bits, to_bits, is_nan};
ghost use Rattle.lists.specs.Tab.{tab};
ghost use Rattle.row_u16.specs.Chunks.{at_least, at_most, placed, cut_at};

// A precision in 64 bits.
fn wide(p: u32) -> u64
    ensures { result ≡ p }
{
    p as u64
}

// The double whose pattern is b, times 2^p: the pattern's exponent begins at 2^52.
pub fn scaled(b: u64, p: u32) -> f64
    requires { (b ≤ 0x43ff_ffff_ffff_ffff) × (p ≤ 45) }
    ensures answer { result ≡ of_bits binary64 (b + p * 2 ^ 52) }
{
    f64::from_bits(b + wide(p) * 0x10_0000_0000_0000)
}

// v, or a half if that is more.
fn at_least(v: f64) -> f64
    ensures { result ≡ at_least v }
{
    let mut x: f64 = 0.5;
    if x < v {
        x = v;
    }
    x
}

// x, or `top` if that is less.
fn at_most(x: f64, top: f64) -> f64
    ensures { result ≡ at_most x top }
{
    let mut y = top;
    if x < y {
        y = x;
    }
    y
}

// A sum cut to 0 .. 65535 and divided by 2^p, for the doubles 65535 x 2^p as `top` and 2^(52 + p) as `big`: a number from `big` to twice `big` has its whole multiples
// of 2^p in its pattern, so the addition rounds the sum to one, and the pattern's last digits are the result.
pub fn cut(v: f64, top: f64, big: f64) -> u16
    requires { T (not (is_nan (placed v top big))) }
    ensures answer { result ≡ to_bits binary64 (placed v top big) % 65536 }
{
    (f64::to_bits(at_most(at_least(v), top) + big) % 65536) as u16
}

// Sixteen sums made samples.
pub(crate) fn put16(ss: [f64; 16], top: f64, big: f64, out: &mut [u16])
    requires by_index { (t : ℕ) → t < 16 → T (not (is_nan (placed (get_or ss t nan) top big))) }
    requires out_len { length out.old ≡ 16 }
    ensures { out.new ≡ tab 0 16 (cut_at ss top big) }
{
    for (t, sample) in out.iter_mut().enumerate() {
        *sample = cut(ss[t], top, big);
    }
}
