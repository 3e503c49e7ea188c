// Narrowing without a branch, so that a loop over it becomes vector code.
ghost use Rattle.std.specs.Prelude.{◌≡◌, ◌^◌};
ghost use Rattle.floats.specs.Within.{AtMost};
ghost use Rattle.numbers.specs.Whole.{narrow as narrowOf};
ghost use Rattle.row_f32.specs.Narrowing.{larger_of};

// The larger of e and 1.5 x 2^-97.
fn larger(e: f64) -> f64
    ensures { result ≡ larger_of e }
{
    let mut c: f64 = 9.466330862652142e-30;
    if c < e {
        c = e;
    }
    c
}

// x as the nearest f32, a tie to the even one, for x up to 2^205 in size. c is 1.5 x 2^29 times the power of two in x, so the last place of x + c is that of
// the result, and adding c and taking it away rounds x there. Times 2^896 and back sends what is 2^128 or more to the infinity. The sign is put back last,
// since a zero has lost it.
pub(crate) fn narrow(x: f64) -> f32
    requires { AtMost x (2 ^ 205) }
    ensures { result ≡ narrowOf x }
{
    let b = f64::to_bits(x);
    let c = larger(
        f64::from_bits(b % 0x8000_0000_0000_0000 / 0x10_0000_0000_0000 * 0x10_0000_0000_0000)
            * 805306368.0,
    );
    let y = (x + c) - c;
    let z = (y * 5.282945311356653e269) * 1.8928834978668395e-270;
    f64::from_bits(f64::to_bits(z) | b / 0x8000_0000_0000_0000 * 0x8000_0000_0000_0000) as f32
}
