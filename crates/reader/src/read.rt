// The readers.
ghost use Rattle.std.specs.Prelude.{true, false, ℕ, ◌≡◌, ◌^◌, ◌≤◌};
ghost use Rattle.sheet_scan.specs.Language.{Taken, limit_of_value};
ghost use Rattle.reader.specs.Reading.{lists, Reads};

use crate::Unread;
use crate::judge::judge;
use sheet_lists::{fill_layout, fill_slots};
use sheet_scan::{Sizes, StoreLines, limit_of};
use windows::Weight;

// The set of a sheet of a store that is taken, whose weights the lent list holds, or nothing. Written into what calls it, as `fill_slots` is, and for its reason.
#[inline(always)]
fn read<W: Weight>(
    wide: bool,
    text: &[u8],
    weights: &mut [W],
    starts: &mut [u32],
    sizes: &mut [u32],
    excesses: &mut [i64],
) -> Result<(Sizes, StoreLines), Unread>
    requires held { (bits : ℕ) → Taken wide bits → limit_of_value bits ≤ 2 ^ W.STORE.limit }
    ensures reads { Reads wide text.now (lists (W.values weights.old) starts.old sizes.old excesses.old) result (lists (W.values weights.new) starts.new sizes.new excesses.new) }
{
    let (v, store, mid) = judge(
        wide,
        text,
        weights.len(),
        starts.len(),
        sizes.len(),
        excesses.len(),
    )?;
    let limit = limit_of(store.bits);
    fill_layout(
        v.lines,
        v.windows,
        v.window_size,
        limit,
        store.precision,
        text,
        mid,
        starts,
        sizes,
        excesses,
    );
    fill_slots(v.lines, v.windows, v.window_size, limit, text, mid, weights);
    Ok((v, store))
}

// The set of a sheet of either store, into the lent lists, or nothing, for any text and lists.
#[inline(always)]
pub fn read_sheet(
    text: &[u8],
    weights: &mut [i32],
    starts: &mut [u32],
    sizes: &mut [u32],
    excesses: &mut [i64],
) -> Result<(Sizes, StoreLines), Unread>
    ensures reads { Reads true text.now (lists weights.old starts.old sizes.old excesses.old) result (lists weights.new starts.new sizes.new excesses.new) }
{
    read(true, text, weights, starts, sizes, excesses)
}

// The same of the 16-bit store alone: a sheet of the 32-bit one is refused at the digit after `store=`.
pub fn read_sheet16(
    text: &[u8],
    weights: &mut [i16],
    starts: &mut [u32],
    sizes: &mut [u32],
    excesses: &mut [i64],
) -> Result<(Sizes, StoreLines), Unread>
    ensures reads { Reads false text.now (lists weights.old starts.old sizes.old excesses.old) result (lists weights.new starts.new sizes.new excesses.new) }
{
    read(false, text, weights, starts, sizes, excesses)
}
