// The report of one window.
ghost use Rattle.std.specs.Prelude.{◌≡◌, [], ◌∷◌, ◌≤◌};
ghost use Rattle.book_numbers.specs.Marks.{bit as bit_of, far_from_one, mark, numbers_of};

use crate::Report;

// 1 for a test that holds, else 0.
fn bit(b: bool) -> u64
    ensures answer { result ≡ bit_of b }
{
    if b {
        return 1;
    }
    0
}

// Whether a window of this excess fails the flat premise. 131070 times its size may be past 64 bits, so what is below 2^p is divided.
fn fails_flat(excess: i64, p: u32) -> bool
    requires { p ≤ 45 }
    ensures answer { result ≡ far_from_one p excess }
{
    let most = ((1u64 << p) - 1) / 131070;
    if excess < 0 {
        return most <= (-1 - excess) as u64;
    }
    most < excess as u64
}

// The report of a window with this excess at a precision, and with or without a negative weight.
pub fn window_report(excess: i64, p: u32, negative: bool) -> Report
    requires { p ≤ 45 }
    ensures answer { result ≡ numbers_of 0 (mark p excess negative ∷ []) 0 0 }
{
    Report {
        sheets: 0,
        windows: 1,
        least: excess,
        most: excess,
        notflat: bit(fails_flat(excess, p)),
        negative: bit(negative),
        stopped: 0,
        byte: 0,
    }
}
