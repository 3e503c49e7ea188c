// The judge of a set for either store.
ghost use Rattle.std.specs.Prelude.{◌≡◌, ◌≤◌};
ghost use Rattle.windows.specs.Set.{layout_of, set_of};
ghost use Rattle.normalizer.specs.Answer.{normalized_of};

use refusal::Refusal;
use weight_precision::{precision, some_not_finite, unstorable};
use windows::{Store, set_fits, sides_fit};

// The precision, or the first of No. 1, 7, 10 and 9 that is due. No weight is compared before all are known to be finite.
pub(crate) fn judge(
    store: Store,
    lines: u32,
    window_size: u32,
    weights: &[f64],
    starts: &[u32],
    sizes: &[u32],
    room: usize,
    places: usize,
) -> Result<u32, Refusal>
    requires fact_1 { 1 ≤ store.bits }
    requires fact_2 { store.bits ≤ 46 }
    requires fact_3 { store.limit ≤ 51 }
    ensures { result ≡ normalized_of store (set_of (layout_of lines window_size starts.now sizes.now) weights.now) room places }
{
    if !sides_fit(lines, starts.len()) {
        return Err(Refusal::BadSide);
    }
    if (room < starts.len() * (window_size as usize)) | (places < starts.len()) {
        return Err(Refusal::TooFewSlots);
    }
    if !set_fits(lines, window_size, weights.len(), starts, sizes) {
        return Err(Refusal::DoesNotFit);
    }
    if some_not_finite(weights) {
        return Err(Refusal::WeightOutside);
    }
    let p = precision(weights, store);
    if unstorable(store, p, window_size, weights, sizes) {
        return Err(Refusal::WeightOutside);
    }
    Ok(p)
}
