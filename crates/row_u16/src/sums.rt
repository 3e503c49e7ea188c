// Sums of columns side by side in integers, as many as the list of sums has places for.
ghost use Rattle.std.specs.Prelude.{◌≡◌, ℕ, ◌+◌, ◌*◌, ◌^◌, ◌<◌, ◌≤◌, pos, nat_abs, length, get_or};
ghost use Rattle.lists.specs.Tab.{tab};
ghost use Rattle.row_u16.specs.Chunks.{step_at, summed_at};

use super::arithmetic::step;

// One line's part of every sum.
fn add_line(src: &[u16], at: usize, w: i32, ss: &mut [i64])
    requires ss_in_bounds { at + length ss.old ≤ length src.now }
    requires by_index { (t : ℕ) → t < length ss.old → nat_abs (get_or ss.old t (pos 0)) ≤ 2 ^ 62 }
    ensures { ss.new ≡ tab 0 (length ss.old) (step_at ss.old w src.now at) }
{
    for (t, sum) in ss.iter_mut().enumerate() {
        *sum = step(*sum, w, src[at + t]);
    }
}

// Every line's part of every sum.
pub(crate) fn add_lines(src: &[u16], row: usize, at0: usize, ws: &[i32], ss: &mut [i64])
    requires row_bound { row ≤ 32768 }
    requires ws_len_bound { length ws.now ≤ 8192 }
    requires by_index { (k : ℕ) → k < length ws.now → at0 + k * row + length ss.old ≤ length src.now }
    requires by_index_2 { (t : ℕ) → t < length ss.old → nat_abs (get_or ss.old t (pos 0)) ≤ 2 ^ 44 }
    ensures { ss.new ≡ tab 0 (length ss.old) (summed_at ss.old ws.now src.now at0 row (length ws.now)) }
{
    let mut at = at0;
    for w in ws {
        add_line(src, at, *w, ss);
        at += row;
    }
}
