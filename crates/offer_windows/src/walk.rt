// The windows judged and counted.
ghost use Rattle.std.specs.Prelude.{◌≡◌, ◌≤◌, length};
ghost use Rattle.lists.specs.Tab.{any, first};
ghost use Rattle.windows.specs.Fit.{InSlots};
ghost use Rattle.offer_windows.specs.Walks.{refused_in, lacking_in};

use offers::{window_lacks, window_refused};
use windows::Weight;

// Whether the offered weights of some window do not repair it.
pub fn some_refused<W: Weight>(
    limit: u32,
    p: u32,
    window: u32,
    weights: &[W],
    offered: &[W],
    sizes: &[u32],
) -> bool
    requires limit_bound { (limit ≤ 31) × (p ≤ 45) }
    requires in_slots { InSlots window sizes.now (length weights.now) }
    requires offered_len { length offered.now ≡ length weights.now }
    ensures answer { result ≡ any (length sizes.now) (refused_in limit p window (W.values weights.now) (W.values offered.now) sizes.now) }
{
    for (i, size) in sizes.iter().enumerate() {
        if window_refused(
            limit,
            p,
            weights,
            offered,
            i * window as usize,
            *size as usize,
        ) {
            return true;
        }
    }
    false
}

// The first window that has no offer, the count of windows where each has one.
pub fn first_lacking<W: Weight>(
    limit: u32,
    window: u32,
    weights: &[W],
    sizes: &[u32],
    excesses: &[i64],
) -> usize
    requires limit_bound { (limit ≤ 31) × (length excesses.now ≡ length sizes.now) }
    requires in_slots { InSlots window sizes.now (length weights.now) }
    ensures answer { result ≡ first (lacking_in limit window (W.values weights.now) sizes.now excesses.now) 0 (length sizes.now) }
{
    for (i, size) in sizes.iter().enumerate() {
        if window_lacks(
            limit,
            excesses[i],
            weights,
            i * window as usize,
            *size as usize,
        ) {
            return i;
        }
    }
    sizes.len()
}
