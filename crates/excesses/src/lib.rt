// `excesses`: by how much each window's weights pass 2^precision, worked out, written and judged. `stored_fits` is the one judge of a stored set, over the weights of any
// store: sides, windows, counts, precision, excesses (`unfit`, No. 1 and No. 10). The sheet writers and the offers ask it, the passes over integers and the story as
// `stored_fits16` or `stored_fits32`. The other functions are lent to the normalisers, the writers and the readers.
#![tactic(auto)]

mod judge;
mod sums;

ghost use Rattle.std.specs.Prelude.{◌≡◌, not};
ghost use Rattle.windows.specs.Set.{layout_of, set_of, stored_of};
ghost use Rattle.windows.specs.Store.{store16, store32};
ghost use Rattle.windows.specs.Fit.{unfit};

pub use judge::stored_fits;
pub use sums::{add, excess_of, power, write_excesses};

// A list of one weight, which is 0, of each store: for whoever has a list of the other store alone to lend.
pub const NO_SHORT: [i16; 1] = [0];

pub const NO_LONG: [i32; 1] = [0];

// Whether a set with weights of 16 bits fits, for any numbers and lists.
pub fn stored_fits16(
    lines: u32,
    window_size: u32,
    precision: u32,
    weights: &[i16],
    starts: &[u32],
    sizes: &[u32],
    excesses: &[i64],
) -> bool
    ensures answer { result ≡ not (unfit (stored_of (set_of (layout_of lines window_size starts.now sizes.now) weights.now) precision excesses.now) store16) }
{
    stored_fits(
        lines,
        window_size,
        precision,
        weights,
        starts,
        sizes,
        excesses,
    )
}

// Whether a set with weights of 32 bits does.
pub fn stored_fits32(
    lines: u32,
    window_size: u32,
    precision: u32,
    weights: &[i32],
    starts: &[u32],
    sizes: &[u32],
    excesses: &[i64],
) -> bool
    ensures answer { result ≡ not (unfit (stored_of (set_of (layout_of lines window_size starts.now sizes.now) weights.now) precision excesses.now) store32) }
{
    stored_fits(
        lines,
        window_size,
        precision,
        weights,
        starts,
        sizes,
        excesses,
    )
}
