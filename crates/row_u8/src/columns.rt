// One window's row: thirty-two columns side by side, then the rest one by one.
ghost use Rattle.std.specs.Prelude.{◌≡◌, ℕ, ◌+◌, ◌-◌, ◌*◌, ◌^◌, ◌<◌, ◌≤◌, length};
ghost use Rattle.lists.specs.Tab.{tab, front};
ghost use Rattle.vertical.specs.Column.{weight_at, row_value, clipped_at};
ghost use Rattle.row_u8.specs.Sizes.{sizes_total_value};

use super::arithmetic::{clip, half};
use super::sums::{pixel, sums32};

// Thirty-two sums made samples.
fn put32(ss: [i32; 32], p: u32, out: &mut [u8])
    requires p_bound { p < 32 }
    requires out_len { length out.old ≡ 32 }
    ensures { out.new ≡ tab 0 32 (clipped_at 255 ss p) }
{
    for (t, sample) in out.iter_mut().enumerate() {
        *sample = clip(ss[t], p);
    }
}

// The columns from `from` on, one by one. What stands before `from` is done.
fn tail(src: &[u8], row: usize, at0: usize, ws: &[i16], p: u32, out: &mut [u8], from: usize)
    requires le_p { (1 ≤ p) × (p ≤ 21) }
    requires ws_bound { 2 ^ (p - 1) + 255 * sizes_total_value (weight_at ws.now) (length ws.now) ≤ 2147483647 }
    requires row_bound { row ≤ 32768 }
    requires by_index { (k : ℕ) → k < length ws.now → at0 + k * row + length out.old ≤ length src.now }
    requires out_bound { at0 + length out.old < 2 ^ 63 }
    requires from_in_bounds { from ≤ length out.old }
    requires out_value { out.old ≡ front from (row_value 255 p ws.now src.now at0 row (length ws.now)) out.old }
    ensures { out.new ≡ tab 0 (length out.old) (row_value 255 p ws.now src.now at0 row (length ws.now)) }
{
    for j in from..out.len() {
        out[j] = pixel(src, row, at0 + j, ws, p);
    }
}

// Thirty-two columns side by side; the first column that is left.
fn chunks(src: &[u8], row: usize, at0: usize, ws: &[i16], p: u32, out: &mut [u8]) -> usize
    requires le_p { (1 ≤ p) × (p ≤ 21) }
    requires ws_bound { 2 ^ (p - 1) + 255 * sizes_total_value (weight_at ws.now) (length ws.now) ≤ 2147483647 }
    requires row_bound { row ≤ 32768 }
    requires by_index { (k : ℕ) → k < length ws.now → at0 + k * row + length out.old ≤ length src.now }
    requires out_bound { at0 + length out.old < 2 ^ 63 }
    ensures upper_bound { result ≤ length out.old }
    ensures out_after { out.new ≡ front result (row_value 255 p ws.now src.now at0 row (length ws.now)) out.old }
{
    let init = half(p);
    let n = out.len() / 32;
    for q in 0..n {
        let j = q * 32;
        let ss = sums32(init, src, row, at0 + j, ws);
        put32(ss, p, &mut out[j..j + 32]);
    }
    n * 32
}

// One window's row, for the columns that `out` has.
pub fn fill(src: &[u8], row: usize, at0: usize, ws: &[i16], p: u32, out: &mut [u8])
    requires le_p { (1 ≤ p) × (p ≤ 21) }
    requires ws_bound { 2 ^ (p - 1) + 255 * sizes_total_value (weight_at ws.now) (length ws.now) ≤ 2147483647 }
    requires row_bound { row ≤ 32768 }
    requires by_index { (k : ℕ) → k < length ws.now → at0 + k * row + length out.old ≤ length src.now }
    requires out_bound { at0 + length out.old < 2 ^ 63 }
    ensures { out.new ≡ tab 0 (length out.old) (row_value 255 p ws.now src.now at0 row (length ws.now)) }
{
    let a = chunks(src, row, at0, ws, p, out);
    tail(src, row, at0, ws, p, out, a);
}
