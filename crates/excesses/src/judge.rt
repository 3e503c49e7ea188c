// The judge of a stored set: No. 1 and No. 10.
ghost use Rattle.std.specs.Prelude.{◌≡◌, not, ◌≤◌, length};
ghost use Rattle.lists.specs.Tab.{any};
ghost use Rattle.windows.specs.Set.{layout_of, set_of, stored_of};
ghost use Rattle.windows.specs.Fit.{InSlots, unfit};
ghost use Rattle.excesses.specs.Slots.{differs_in, bad_shape};

use crate::sums::excess_of;
use windows::{Store, Weight, precision_fits, set_fits, sides_fit};

// Whether some excess is not its window's.
fn some_differ<W: Weight>(
    p: u32,
    window: u32,
    weights: &[W],
    sizes: &[u32],
    excesses: &[i64],
) -> bool
    requires p_bound { (p ≤ 45) × (length excesses.now ≡ length sizes.now) }
    requires in_slots { InSlots window sizes.now (length weights.now) }
    ensures answer { result ≡ any (length sizes.now) (differs_in p window (W.values weights.now) sizes.now excesses.now) }
{
    for (i, size) in sizes.iter().enumerate() {
        if excess_of(p, weights, i * window as usize, *size as usize) != excesses[i] {
            return true;
        }
    }
    false
}

// Whether sides, windows, counts and precision fit: what must be so before a weight is read.
fn shape_fits(
    store: Store,
    lines: u32,
    window_size: u32,
    precision: u32,
    slots: usize,
    starts: &[u32],
    sizes: &[u32],
) -> bool
    ensures answer { result ≡ not (bad_shape store (layout_of lines window_size starts.now sizes.now) slots precision) }
{
    if !sides_fit(lines, starts.len()) {
        return false;
    }
    if !set_fits(lines, window_size, slots, starts, sizes) {
        return false;
    }
    precision_fits(store, precision)
}

// Whether a stored set fits, for any numbers and lists.
pub fn stored_fits<W: Weight>(
    lines: u32,
    window_size: u32,
    precision: u32,
    weights: &[W],
    starts: &[u32],
    sizes: &[u32],
    excesses: &[i64],
) -> bool
    ensures answer { result ≡ not (unfit (stored_of (set_of (layout_of lines window_size starts.now sizes.now) (W.values weights.now)) precision excesses.now) W.STORE) }
{
    if !shape_fits(
        W::STORE,
        lines,
        window_size,
        precision,
        weights.len(),
        starts,
        sizes,
    ) {
        return false;
    }
    if excesses.len() != starts.len() {
        return false;
    }
    !some_differ(precision, window_size, weights, sizes, excesses)
}
