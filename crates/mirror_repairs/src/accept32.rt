// The judge of an offer for a set of the 32-bit store.
ghost use Rattle.std.specs.Prelude.{◌≡◌};
ghost use Rattle.windows.specs.Set.{layout_of, set_of, stored_of};
ghost use Rattle.windows.specs.Store.{store32};
ghost use Rattle.repairs.specs.Offer.{offer_of};
ghost use Rattle.repairs.specs.Answer.{accepted_of, weights_of, excesses_of, number_of};

use refusal::Numbered;

// 0, and the offered weights are in the slots in use and every excess is 0; or No. 1, 10 or 14, and nothing is changed.
#[unsafe(no_mangle)]
pub extern "C" fn mirror_accept32(
    lines: u32,
    window: u32,
    precision: u32,
    weights: &mut [i32],
    starts: &[u32],
    sizes: &[u32],
    excesses: &mut [i64],
    offered_window: u32,
    offered_precision: u32,
    offered_starts: &[u32],
    offered_sizes: &[u32],
    offered_weights: &[i32],
) -> u32
    ensures answer { result ≡ number_of (accepted_of store32 (stored_of (set_of (layout_of lines window starts.now sizes.now) weights.old) precision excesses.old) (offer_of offered_window offered_precision offered_starts.now offered_sizes.now offered_weights.now)) }
    ensures written { weights.new ≡ weights_of store32 (stored_of (set_of (layout_of lines window starts.now sizes.now) weights.old) precision excesses.old) (offer_of offered_window offered_precision offered_starts.now offered_sizes.now offered_weights.now) }
    ensures written2 { excesses.new ≡ excesses_of store32 (stored_of (set_of (layout_of lines window starts.now sizes.now) weights.old) precision excesses.old) (offer_of offered_window offered_precision offered_starts.now offered_sizes.now offered_weights.now) }
{
    let answer = accept_offers::accept_offer32(
        lines,
        window,
        precision,
        weights,
        starts,
        sizes,
        excesses,
        offered_window,
        offered_precision,
        offered_starts,
        offered_sizes,
        offered_weights,
    );
    answer.number()
}
