// Sums of pixels side by side in doubles, exact up to 32 lines as in `row_u16`. The count of sums and of components is the caller's: where both are known the compiler keeps
// the sums in registers, two to each, and knows the places.
ghost use Rattle.std.specs.Prelude.{◌≡◌, ℕ, ◌+◌, ◌*◌, ◌^◌, ◌<◌, ◌≤◌, nat_abs, length, get_or};
ghost use Rattle.std.specs.Float.{nan};
ghost use Rattle.lists.specs.Tab.{tab};
ghost use Rattle.floats.specs.Doubles.{half64};
ghost use Rattle.vertical.specs.Column.{column_sum};
ghost use Rattle.row_u16.specs.Chunks.{half_more};
ghost use Rattle.pixels_u16.specs.Places.{place_at, added_at};

use row_u16::{added, weight};

// One weight's part of every sum.
fn add_pixels(src: &[u16], at: usize, components: usize, row: usize, w: f64, ss: &mut [f64])
    requires le_components { 1 ≤ components }
    requires by_index { (t : ℕ) → t < length ss.old → place_at at components row t < length src.now }
    ensures { ss.new ≡ tab 0 (length ss.old) (added_at ss.old w src.now at components row) }
{
    for (t, sum) in ss.iter_mut().enumerate() {
        *sum = added(*sum, w, src[at + t / components * row + t % components]);
    }
}

// Every weight's part of every sum, the weights being those of pixels that follow one another. The sums have a half in them, so that none is a tie between two results.
pub(crate) fn sum_pixels(
    src: &[u16],
    at0: usize,
    components: usize,
    row: usize,
    ws: &[i32],
    ss: &mut [f64],
)
    requires le_components { (1 ≤ components) × (components ≤ 4) × (at0 < 2 ^ 63) }
    requires ws_len_bound { length ws.now ≤ 32 }
    requires by_index { (k : ℕ) → k < length ws.now → (t : ℕ) → t < length ss.old → place_at (at0 + k * components) components row t < length src.now }
    requires by_index_2 { (t : ℕ) → t < length ss.old → get_or ss.old t nan ≡ half64 }
    ensures by_index_3 { (t : ℕ) → t < length ss.old → get_or ss.new t nan ≡ half_more (column_sum ws.now src.now (place_at at0 components row t) components (length ws.now)) }
    ensures by_index_4 { (t : ℕ) → t < length ss.old → nat_abs (column_sum ws.now src.now (place_at at0 components row t) components (length ws.now)) < 2 ^ 52 }
{
    let mut at = at0;
    for w in ws {
        add_pixels(src, at, components, row, weight(*w), ss);
        at += components;
    }
}
