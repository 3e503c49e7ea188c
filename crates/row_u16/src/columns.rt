// One window's row: sixteen columns side by side, then four, then the rest one by one.
ghost use Rattle.std.specs.Prelude.{◌≡◌, ℕ, ◌+◌, ◌*◌, ◌-◌, ◌^◌, ◌<◌, ◌≤◌, pos, length, get_or};
ghost use Rattle.lists.specs.Tab.{tab, front};
ghost use Rattle.vertical.specs.Column.{row_value, clipped_at};

use super::arithmetic::{clip, half};
use super::sums::add_lines;
use super::{doubles, rounding};

// Sums made samples, as many as `out` has places for.
fn put_columns(ss: &[i64], p: u32, out: &mut [u16])
    requires p_bound { p < 64 }
    requires out_in_bounds { length out.old ≤ length ss.now }
    ensures { out.new ≡ tab 0 (length out.old) (clipped_at 65535 ss.now p) }
{
    for (t, sample) in out.iter_mut().enumerate() {
        *sample = clip(ss[t], p);
    }
}

// The columns that `out` has, side by side in integers, for windows of any number of lines. `ss` has a place for each, with the half of 2^p in it, so that the shift
// rounds to the nearest. Lent by callers that know their number: the compiler then keeps the sums in registers.
fn chunk(src: &[u16], row: usize, at0: usize, ws: &[i32], p: u32, ss: &mut [i64], out: &mut [u16])
    requires le_p { (1 ≤ p) × (p ≤ 45) }
    requires row_bound { row ≤ 32768 }
    requires ws_len_bound { length ws.now ≤ 8192 }
    requires by_index { (k : ℕ) → k < length ws.now → at0 + k * row + length out.old ≤ length src.now }
    requires ss_len { length ss.old ≡ length out.old }
    requires by_index_2 { (t : ℕ) → t < length ss.old → get_or ss.old t (pos 0) ≡ pos (2 ^ (p - 1)) }
    ensures { out.new ≡ tab 0 (length out.old) (row_value 65535 p ws.now src.now at0 row (length ws.now)) }
{
    add_lines(src, row, at0, ws, ss);
    put_columns(ss, p, out);
}

// N columns side by side in integers, as often as `out` has N from `from` on; the first column that is left. What stands before `from` is done.
fn chunks<const N: usize>(
    src: &[u16],
    row: usize,
    at0: usize,
    ws: &[i32],
    p: u32,
    out: &mut [u16],
    from: usize,
) -> usize
    requires wide { (1 ≤ N) × (N ≤ 16) }
    requires le_p { (1 ≤ p) × (p ≤ 45) }
    requires row_bound { row ≤ 32768 }
    requires ws_len_bound { length ws.now ≤ 8192 }
    requires by_index { (k : ℕ) → k < length ws.now → at0 + k * row + length out.old ≤ length src.now }
    requires out_bound { at0 + length out.old < 2 ^ 63 }
    requires from_in_bounds { from ≤ length out.old }
    requires out_value { out.old ≡ front from (row_value 65535 p ws.now src.now at0 row (length ws.now)) out.old }
    ensures upper_bound { (result ≤ length out.old) × (length out.old < result + N) }
    ensures out_after { out.new ≡ front result (row_value 65535 p ws.now src.now at0 row (length ws.now)) out.old }
{
    let init = half(p);
    let n = (out.len() - from) / N;
    for q in 0..n {
        let j = from + q * N;
        let mut ss: [i64; N] = [init; N];
        chunk(src, row, at0 + j, ws, p, &mut ss, &mut out[j..j + N]);
    }
    from + n * N
}

// Sixteen columns side by side in doubles, in which the sums of up to 32 lines are exact; the first column that is left.
fn short_chunks(src: &[u16], row: usize, at0: usize, ws: &[i32], p: u32, out: &mut [u16]) -> usize
    requires le_p { (1 ≤ p) × (p ≤ 45) }
    requires row_bound { row ≤ 32768 }
    requires ws_len_bound { length ws.now ≤ 32 }
    requires by_index { (k : ℕ) → k < length ws.now → at0 + k * row + length out.old ≤ length src.now }
    requires out_bound { at0 + length out.old < 2 ^ 63 }
    ensures upper_bound { result ≤ length out.old }
    ensures out_after { out.new ≡ front result (row_value 65535 p ws.now src.now at0 row (length ws.now)) out.old }
{
    let top = rounding::scaled(0x40ef_ffe0_0000_0000, p);
    let big = rounding::scaled(0x4330_0000_0000_0000, p);
    let n = out.len() / 16;
    for q in 0..n {
        let j = q * 16;
        let ss = doubles::sums16(src, row, at0 + j, ws);
        rounding::put16(ss, top, big, &mut out[j..j + 16]);
    }
    n * 16
}

// Sixteen columns side by side, in doubles where they are exact; the first column that is left.
fn sixteens(src: &[u16], row: usize, at0: usize, ws: &[i32], p: u32, out: &mut [u16]) -> usize
    requires le_p { (1 ≤ p) × (p ≤ 45) }
    requires row_bound { row ≤ 32768 }
    requires ws_len_bound { length ws.now ≤ 8192 }
    requires by_index { (k : ℕ) → k < length ws.now → at0 + k * row + length out.old ≤ length src.now }
    requires out_bound { at0 + length out.old < 2 ^ 63 }
    ensures upper_bound { result ≤ length out.old }
    ensures out_after { out.new ≡ front result (row_value 65535 p ws.now src.now at0 row (length ws.now)) out.old }
{
    if ws.len() <= 32 {
        short_chunks(src, row, at0, ws, p, out)
    } else {
        chunks::<16>(src, row, at0, ws, p, out, 0)
    }
}

// One window's row, for the columns that `out` has.
pub fn fill(src: &[u16], row: usize, at0: usize, ws: &[i32], p: u32, out: &mut [u16])
    requires le_p { (1 ≤ p) × (p ≤ 45) }
    requires row_bound { row ≤ 32768 }
    requires ws_len_bound { length ws.now ≤ 8192 }
    requires by_index { (k : ℕ) → k < length ws.now → at0 + k * row + length out.old ≤ length src.now }
    requires out_bound { at0 + length out.old < 2 ^ 63 }
    ensures written { out.new ≡ tab 0 (length out.old) (row_value 65535 p ws.now src.now at0 row (length ws.now)) }
{
    let a = sixteens(src, row, at0, ws, p, out);
    let b = chunks::<4>(src, row, at0, ws, p, out, a);
    chunks::<1>(src, row, at0, ws, p, out, b);
}
