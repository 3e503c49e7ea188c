// The judge of an offer.
ghost use Rattle.std.specs.Prelude.{◌≡◌};
ghost use Rattle.windows.specs.Set.{layout_of, set_of, stored_of};
ghost use Rattle.repairs.specs.Offer.{offer_of};
ghost use Rattle.repairs.specs.Answer.{accepted_of};

use crate::shape::shape_differs;
use excesses::stored_fits;
use offer_windows::some_refused;
use refusal::Refusal;
use windows::{Weight, sides_fit};

// Whether an offer is taken over, or the first of No. 1, 10 and 14 that is due.
pub(crate) fn judge_offer<W: Weight>(
    lines: u32,
    window_size: u32,
    precision: u32,
    weights: &[W],
    starts: &[u32],
    sizes: &[u32],
    excesses: &[i64],
    offered_window_size: u32,
    offered_precision: u32,
    offered_starts: &[u32],
    offered_sizes: &[u32],
    offered_weights: &[W],
) -> Result<(), Refusal>
    ensures answer { result ≡ accepted_of W.STORE (stored_of (set_of (layout_of lines window_size starts.now sizes.now) (W.values weights.now)) precision excesses.now) (offer_of offered_window_size offered_precision offered_starts.now offered_sizes.now (W.values offered_weights.now)) }
{
    if !sides_fit(lines, starts.len()) {
        return Err(Refusal::BadSide);
    }
    let fits = stored_fits(
        lines,
        window_size,
        precision,
        weights,
        starts,
        sizes,
        excesses,
    );
    if !fits {
        return Err(Refusal::DoesNotFit);
    }
    if shape_differs(
        window_size,
        precision,
        starts,
        sizes,
        weights.len(),
        offered_window_size,
        offered_precision,
        offered_starts,
        offered_sizes,
        offered_weights.len(),
    ) {
        return Err(Refusal::NoOffer);
    }
    if some_refused(
        W::STORE.limit,
        precision,
        window_size,
        weights,
        offered_weights,
        sizes,
    ) {
        return Err(Refusal::NoOffer);
    }
    Ok(())
}
