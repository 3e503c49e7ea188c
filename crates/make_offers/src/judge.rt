// The offerer's judge.
ghost use Rattle.std.specs.Prelude.{◌≡◌};
ghost use Rattle.windows.specs.Set.{layout_of, set_of, stored_of};
ghost use Rattle.repairs.specs.Answer.{offered_of};

use excesses::stored_fits;
use offer_windows::first_lacking;
use refusal::Refusal;
use repairs::NotOffered;
use windows::{DisplayLine, Weight, sides_fit};

// Whether our own offer is written into so much room, or the first of No. 1, 7, 10 and 14 that is due.
pub(crate) fn judge_set<W: Weight>(
    lines: u32,
    window_size: u32,
    precision: u32,
    weights: &[W],
    starts: &[u32],
    sizes: &[u32],
    excesses: &[i64],
    room: usize,
) -> Result<(), NotOffered>
    ensures answer { result ≡ offered_of W.STORE (stored_of (set_of (layout_of lines window_size starts.now sizes.now) (W.values weights.now)) precision excesses.now) room }
{
    if !sides_fit(lines, starts.len()) {
        return Err(NotOffered::Refused(Refusal::BadSide));
    }
    if room < starts.len() * (window_size as usize) {
        return Err(NotOffered::Refused(Refusal::TooFewSlots));
    }
    if !stored_fits(
        lines,
        window_size,
        precision,
        weights,
        starts,
        sizes,
        excesses,
    ) {
        return Err(NotOffered::Refused(Refusal::DoesNotFit));
    }
    let line = first_lacking(W::STORE.limit, window_size, weights, sizes, excesses);
    if line < starts.len() {
        return Err(NotOffered::NotFound(DisplayLine(line as u32)));
    }
    Ok(())
}
