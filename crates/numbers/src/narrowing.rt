// Narrowing of a binary64 pattern with no sign by a rounding shift: the carry runs into the exponent, and past it into infinity.
ghost use Rattle.std.specs.Prelude.{◌≡◌, ◌^◌, ◌<◌, ◌≤◌};
ghost use Rattle.std.specs.Float.Ieee.Nearest.{closest};
ghost use Rattle.numbers.specs.Inner.{narrow_size_value};

// w / 2^sh to the nearest whole number, a tie to the even one. The rest is compared with what is left of the unit, so nothing overflows.
fn nearest_shift(w: u64, sh: u64) -> u64
    requires fact_1 { 1 ≤ sh }
    requires fact_2 { sh < 64 }
    ensures { result ≡ closest w (2 ^ sh) }
{
    let unit: u64 = 1 << sh;
    let q = w / unit;
    let r = w % unit;
    if r < unit - r {
        return q;
    }
    if r > unit - r {
        return q + 1;
    }
    q + q % 2
}

// The binary32 pattern of a binary64 pattern p with no sign, up to the infinity's: 896 steps of the exponent lower where the result is
// normal, by the digits alone where it is subnormal (its exponent's field is 873 to 896), and 0 below.
pub(crate) fn narrow_size(p: u64) -> u64
    requires { p ≤ 0x7ff0_0000_0000_0000 }
    ensures { result ≡ narrow_size_value p }
{
    let field = p / 0x10_0000_0000_0000;
    if field >= 897 {
        let y = nearest_shift(p - 0x3800_0000_0000_0000, 29);
        if y < 0x7f80_0000 {
            return y;
        }
        return 0x7f80_0000;
    }
    if field >= 873 {
        return nearest_shift(0x10_0000_0000_0000 + p % 0x10_0000_0000_0000, 926 - field);
    }
    0
}
