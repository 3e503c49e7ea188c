// One window's row: sixteen columns at a time, whose samples are carried into four lanes before they are stored, then the rest one by one.
ghost use Rattle.std.specs.Prelude.{◌≡◌, ℕ, ◌+◌, ◌*◌, ◌/◌, ◌^◌, ◌<◌, ◌≤◌, length, get_or};
ghost use Rattle.std.specs.Float.{nan};
ghost use Rattle.floats.specs.Within.{AtMost};
ghost use Rattle.finite_f32.specs.Scan.{Zeros, Flags};
ghost use Rattle.numbers.specs.Whole.{narrow as narrowOf};
ghost use Rattle.row_f32.specs.Column.{column_value, Summable};

use super::narrowing::narrow;
use super::sums::{sum, sums16};
use finite_f32::sixteen;

// One column's value.
fn pixel(src: &[f32], row: usize, at: usize, ws: &[f64]) -> f32
    requires { Summable ws.now src.now at row 1 }
    ensures { result ≡ column_value ws.now src.now at row (length ws.now) }
{
    narrow(sum(src, row, at, ws))
}

// Sixteen sums made samples.
fn narrow16(ss: [f64; 16]) -> [f32; 16]
    requires { (t : ℕ) → t < 16 → AtMost (get_or ss t nan) (2 ^ 205) }
    ensures { (t : ℕ) → t < 16 → get_or result t nan ≡ narrowOf (get_or ss t nan) }
{
    let mut ys: [f32; 16] = [0.0; 16];
    for t in 0..16 {
        ys[t] = narrow(ss[t]);
    }
    ys
}

// Sixteen samples stored, from column j on.
fn put16(ys: [f32; 16], out: &mut [f32], j: usize)
    requires { j + 16 ≤ length out.old }
    ensures by_index { (t : ℕ) → t < 16 → get_or out.new (j + t) nan ≡ get_or ys t nan }
    ensures by_index_2 { (x : ℕ) → x < j → get_or out.new x nan ≡ get_or out.old x nan }
{
    for t in 0..16 {
        out[j + t] = ys[t];
    }
}

// The columns from `from` on, one by one.
fn tail(src: &[f32], row: usize, at0: usize, ws: &[f64], out: &mut [f32], from: usize)
    requires summable { Summable ws.now src.now at0 row (length out.old) }
    requires out_bound { at0 + length out.old < 2 ^ 63 }
    requires from_in_bounds { from ≤ length out.old }
    ensures by_index { (j : ℕ) → from ≤ j → j < length out.old → get_or out.new j nan ≡ column_value ws.now src.now (at0 + j) row (length ws.now) }
    ensures by_index_2 { (j : ℕ) → j < from → get_or out.new j nan ≡ get_or out.old j nan }
{
    for j in from..out.len() {
        out[j] = pixel(src, row, at0 + j, ws);
    }
}

// One window's row, for the columns that `out` has. Lanes that are zeros after it were so before, and tell that the columns up to the last sixteen are finite.
pub fn fill(
    z0: [f32; 4],
    src: &[f32],
    row: usize,
    at0: usize,
    ws: &[f64],
    out: &mut [f32],
) -> [f32; 4]
    requires z0_len { (length z0 ≡ 4) × Flags 4 z0 }
    requires summable { Summable ws.now src.now at0 row (length out.old) }
    requires out_bound { at0 + length out.old < 2 ^ 63 }
    ensures by_index { (j : ℕ) → j < length out.old → get_or out.new j nan ≡ column_value ws.now src.now (at0 + j) row (length ws.now) }
    ensures result_len { (length result ≡ 4) × Flags 4 result × (Zeros 4 result → Zeros 4 z0) }
    ensures at_most { Zeros 4 result → (j : ℕ) → j < length out.old / 16 * 16 → AtMost (column_value ws.now src.now (at0 + j) row (length ws.now)) (2 ^ 128) }
{
    let n = out.len() / 16;
    let mut zz = z0;
    for q in 0..n {
        let j = q * 16;
        let ss = sums16(src, row, at0 + j, ws);
        let ys = narrow16(ss);
        let more = sixteen(zz, ys);
        zz = more;
        put16(ys, out, j);
    }
    tail(src, row, at0, ws, out, n * 16);
    zz
}
