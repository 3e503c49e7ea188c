// An offer for a stored set, judged and taken over. Nothing is written before all of it is judged.
ghost use Rattle.std.specs.Prelude.{◌≡◌};
ghost use Rattle.windows.specs.Set.{layout_of, set_of, stored_of};
ghost use Rattle.windows.specs.Store.{store16, store32};
ghost use Rattle.repairs.specs.Offer.{offer_of};
ghost use Rattle.repairs.specs.Answer.{accepted_of, weights_of, excesses_of};

use crate::judge::judge_offer;
use offer_windows::{clear, replace};
use refusal::Refusal;
use windows::Weight;

// Judges an offer for a stored set, and takes it over where it is accepted; for any numbers and lists.
pub fn accept_offer<W: Weight>(
    lines: u32,
    window_size: u32,
    precision: u32,
    weights: &mut [W],
    starts: &[u32],
    sizes: &[u32],
    excesses: &mut [i64],
    offered_window_size: u32,
    offered_precision: u32,
    offered_starts: &[u32],
    offered_sizes: &[u32],
    offered_weights: &[W],
) -> Result<(), Refusal>
    ensures answer { result ≡ accepted_of W.STORE (stored_of (set_of (layout_of lines window_size starts.now sizes.now) (W.values weights.old)) precision excesses.old) (offer_of offered_window_size offered_precision offered_starts.now offered_sizes.now (W.values offered_weights.now)) }
    ensures written { W.values weights.new ≡ weights_of W.STORE (stored_of (set_of (layout_of lines window_size starts.now sizes.now) (W.values weights.old)) precision excesses.old) (offer_of offered_window_size offered_precision offered_starts.now offered_sizes.now (W.values offered_weights.now)) }
    ensures written2 { excesses.new ≡ excesses_of W.STORE (stored_of (set_of (layout_of lines window_size starts.now sizes.now) (W.values weights.old)) precision excesses.old) (offer_of offered_window_size offered_precision offered_starts.now offered_sizes.now (W.values offered_weights.now)) }
{
    let judged = judge_offer(
        lines,
        window_size,
        precision,
        weights,
        starts,
        sizes,
        excesses,
        offered_window_size,
        offered_precision,
        offered_starts,
        offered_sizes,
        offered_weights,
    );
    judged?;
    replace(window_size, sizes, offered_weights, weights);
    clear(excesses);
    Ok(())
}

// The same for a set of the 16-bit store.
pub fn accept_offer16(
    lines: u32,
    window_size: u32,
    precision: u32,
    weights: &mut [i16],
    starts: &[u32],
    sizes: &[u32],
    excesses: &mut [i64],
    offered_window_size: u32,
    offered_precision: u32,
    offered_starts: &[u32],
    offered_sizes: &[u32],
    offered_weights: &[i16],
) -> Result<(), Refusal>
    ensures answer { result ≡ accepted_of store16 (stored_of (set_of (layout_of lines window_size starts.now sizes.now) weights.old) precision excesses.old) (offer_of offered_window_size offered_precision offered_starts.now offered_sizes.now offered_weights.now) }
    ensures written { weights.new ≡ weights_of store16 (stored_of (set_of (layout_of lines window_size starts.now sizes.now) weights.old) precision excesses.old) (offer_of offered_window_size offered_precision offered_starts.now offered_sizes.now offered_weights.now) }
    ensures written2 { excesses.new ≡ excesses_of store16 (stored_of (set_of (layout_of lines window_size starts.now sizes.now) weights.old) precision excesses.old) (offer_of offered_window_size offered_precision offered_starts.now offered_sizes.now offered_weights.now) }
{
    accept_offer(
        lines,
        window_size,
        precision,
        weights,
        starts,
        sizes,
        excesses,
        offered_window_size,
        offered_precision,
        offered_starts,
        offered_sizes,
        offered_weights,
    )
}

// The same for a set of the 32-bit store.
pub fn accept_offer32(
    lines: u32,
    window_size: u32,
    precision: u32,
    weights: &mut [i32],
    starts: &[u32],
    sizes: &[u32],
    excesses: &mut [i64],
    offered_window_size: u32,
    offered_precision: u32,
    offered_starts: &[u32],
    offered_sizes: &[u32],
    offered_weights: &[i32],
) -> Result<(), Refusal>
    ensures answer { result ≡ accepted_of store32 (stored_of (set_of (layout_of lines window_size starts.now sizes.now) weights.old) precision excesses.old) (offer_of offered_window_size offered_precision offered_starts.now offered_sizes.now offered_weights.now) }
    ensures written { weights.new ≡ weights_of store32 (stored_of (set_of (layout_of lines window_size starts.now sizes.now) weights.old) precision excesses.old) (offer_of offered_window_size offered_precision offered_starts.now offered_sizes.now offered_weights.now) }
    ensures written2 { excesses.new ≡ excesses_of store32 (stored_of (set_of (layout_of lines window_size starts.now sizes.now) weights.old) precision excesses.old) (offer_of offered_window_size offered_precision offered_starts.now offered_sizes.now offered_weights.now) }
{
    accept_offer(
        lines,
        window_size,
        precision,
        weights,
        starts,
        sizes,
        excesses,
        offered_window_size,
        offered_precision,
        offered_starts,
        offered_sizes,
        offered_weights,
    )
}
