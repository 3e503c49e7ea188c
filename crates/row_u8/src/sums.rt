// The sum and the value of one column, and the sums of thirty-two columns side by side. Every function asks that the start of a sum and 255 times the sizes of the
// weights are at most 2^31 - 1 together, which the judge has shown of every window; so no step wraps.
ghost use Rattle.std.specs.Prelude.{◌≡◌, ℕ, ◌+◌, ◌-◌, ◌*◌, ◌^◌, ◌<◌, ◌≤◌, pos, nat_abs, ◌+ℤ◌, ◌*ℤ◌, length, get_or};
ghost use Rattle.vertical.specs.Column.{weight_at, column_sum, column_value};
ghost use Rattle.row_u8.specs.Sizes.{sizes_total_value};

use super::arithmetic::{clip, half, step};

// One column's sum, added to `init`.
fn sum(init: i32, src: &[u8], row: usize, at0: usize, ws: &[i16]) -> i32
    requires ws_bound { nat_abs init + 255 * sizes_total_value (weight_at ws.now) (length ws.now) ≤ 2147483647 }
    requires row_bound { row ≤ 32768 }
    requires by_index { (k : ℕ) → k < length ws.now → at0 + k * row < length src.now }
    ensures { result ≡ init +ℤ column_sum ws.now src.now at0 row (length ws.now) }
{
    let mut acc = init;
    let mut at = at0;
    for w in ws {
        acc = step(acc, *w, src[at]);
        at += row;
    }
    acc
}

// One column's value.
pub(crate) fn pixel(src: &[u8], row: usize, at: usize, ws: &[i16], p: u32) -> u8
    requires le_p { (1 ≤ p) × (p ≤ 21) }
    requires ws_bound { 2 ^ (p - 1) + 255 * sizes_total_value (weight_at ws.now) (length ws.now) ≤ 2147483647 }
    requires row_bound { row ≤ 32768 }
    requires by_index { (k : ℕ) → k < length ws.now → at + k * row < length src.now }
    ensures { result ≡ column_value 255 p ws.now src.now at row (length ws.now) }
{
    clip(sum(half(p), src, row, at, ws), p)
}

// One line's part of thirty-two sums. A line of weight 0 adds nothing; without this branch the compiler would put lines, not columns, side by side (docs/SPEED.md).
fn add32(ss: [i32; 32], src: &[u8], at: usize, w: i16) -> [i32; 32]
    requires ss_len { length ss ≡ 32 }
    requires at_in_bounds { at + 32 ≤ length src.now }
    requires by_index { (t : ℕ) → t < 32 → nat_abs (get_or ss t (pos 0)) + 255 * nat_abs w ≤ 2147483647 }
    ensures result_len { length result ≡ 32 }
    ensures by_index_2 { (t : ℕ) → t < 32 → get_or result t (pos 0) ≡ get_or ss t (pos 0) +ℤ w *ℤ pos (get_or src.now (at + t) 0) }
{
    if w == 0 {
        return ss;
    }
    let mut r = ss;
    for t in 0..32 {
        r[t] = step(r[t], w, src[at + t]);
    }
    r
}

// The sums of thirty-two columns, each added to `init`.
pub(crate) fn sums32(init: i32, src: &[u8], row: usize, at0: usize, ws: &[i16]) -> [i32; 32]
    requires ws_bound { nat_abs init + 255 * sizes_total_value (weight_at ws.now) (length ws.now) ≤ 2147483647 }
    requires row_bound { row ≤ 32768 }
    requires by_index { (k : ℕ) → k < length ws.now → at0 + k * row + 32 ≤ length src.now }
    ensures { (t : ℕ) → t < 32 → get_or result t (pos 0) ≡ init +ℤ column_sum ws.now src.now (at0 + t) row (length ws.now) }
{
    let mut ss: [i32; 32] = [init; 32];
    let mut at = at0;
    for w in ws {
        let more = add32(ss, src, at, *w);
        ss = more;
        at += row;
    }
    ss
}
