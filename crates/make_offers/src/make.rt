// The offerer. The judge's walk over the windows only counts, so that nothing is written where some window has no offer.
ghost use Rattle.std.specs.Prelude.{◌≡◌, length};
ghost use Rattle.windows.specs.Set.{layout_of, set_of, stored_of};
ghost use Rattle.windows.specs.Store.{store16, store32};
ghost use Rattle.repairs.specs.Answer.{offered_of, written_of};

use crate::judge::judge_set;
use offer_windows::write_offers;
use repairs::NotOffered;
use windows::Weight;

// An offer of our own for a stored set, in the first slots of `out`; for any numbers and lists.
pub fn make_offer<W: Weight>(
    lines: u32,
    window_size: u32,
    precision: u32,
    weights: &[W],
    starts: &[u32],
    sizes: &[u32],
    excesses: &[i64],
    out: &mut [W],
) -> Result<(), NotOffered>
    ensures answer { result ≡ offered_of W.STORE (stored_of (set_of (layout_of lines window_size starts.now sizes.now) (W.values weights.now)) precision excesses.now) (length out.old) }
    ensures written { W.values out.new ≡ written_of W.STORE (stored_of (set_of (layout_of lines window_size starts.now sizes.now) (W.values weights.now)) precision excesses.now) (W.values out.old) }
{
    judge_set(
        lines,
        window_size,
        precision,
        weights,
        starts,
        sizes,
        excesses,
        out.len(),
    )?;
    write_offers(window_size, weights, sizes, excesses, out);
    Ok(())
}

// The same for a set of the 16-bit store.
pub fn make_offer16(
    lines: u32,
    window_size: u32,
    precision: u32,
    weights: &[i16],
    starts: &[u32],
    sizes: &[u32],
    excesses: &[i64],
    out: &mut [i16],
) -> Result<(), NotOffered>
    ensures answer { result ≡ offered_of store16 (stored_of (set_of (layout_of lines window_size starts.now sizes.now) weights.now) precision excesses.now) (length out.old) }
    ensures written { out.new ≡ written_of store16 (stored_of (set_of (layout_of lines window_size starts.now sizes.now) weights.now) precision excesses.now) out.old }
{
    make_offer(
        lines,
        window_size,
        precision,
        weights,
        starts,
        sizes,
        excesses,
        out,
    )
}

// The same for a set of the 32-bit store.
pub fn make_offer32(
    lines: u32,
    window_size: u32,
    precision: u32,
    weights: &[i32],
    starts: &[u32],
    sizes: &[u32],
    excesses: &[i64],
    out: &mut [i32],
) -> Result<(), NotOffered>
    ensures answer { result ≡ offered_of store32 (stored_of (set_of (layout_of lines window_size starts.now sizes.now) weights.now) precision excesses.now) (length out.old) }
    ensures written { out.new ≡ written_of store32 (stored_of (set_of (layout_of lines window_size starts.now sizes.now) weights.now) precision excesses.now) out.old }
{
    make_offer(
        lines,
        window_size,
        precision,
        weights,
        starts,
        sizes,
        excesses,
        out,
    )
}
