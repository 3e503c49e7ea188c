// Whether a text is a sheet, with enough lent for it.
ghost use Rattle.std.specs.Prelude.{◌≡◌};
ghost use Rattle.reader.specs.declared.Unread.TheVariants.{NotASheet};
ghost use Rattle.reader.specs.Reading.{room_for, too_few_slots, Judges};

use crate::Unread;
use excess_scan::scan_excesses;
use sheet_scan::{Sizes, StoreLines, limit_of, scan_rest, scan_sizes};

// Whether fewer slots, starts, sizes or excesses are lent than the windows need.
fn too_few(v: Sizes, slots: usize, starts: usize, sizes: usize, excesses: usize) -> bool
    ensures answer { result ≡ too_few_slots v (room_for slots starts sizes excesses) }
{
    let windows = v.windows as usize;
    let window_size = v.window_size as usize;
    (((slots < windows * window_size) | (starts < windows)) | (sizes < windows))
        | (excesses < windows)
}

// Why a text that stops being like a sheet at a place is not read.
fn not_a_sheet(stop: usize) -> Unread
    ensures answer { result ≡ NotASheet stop }
{
    Unread::NotASheet(stop as u64)
}

// What the head lines of a sheet say and the place of its windows' lines, or why the text is not read. Too few slots are told as soon as the size lines are
// right, before what comes after them is looked at.
pub(crate) fn judge(
    wide: bool,
    text: &[u8],
    slots: usize,
    starts: usize,
    sizes: usize,
    excesses: usize,
) -> Result<(Sizes, StoreLines, usize), Unread>
    ensures answer { Judges wide text.now (room_for slots starts sizes excesses) result }
{
    let (v, a) = scan_sizes(text, 0).map_err(not_a_sheet)?;
    if too_few(v, slots, starts, sizes, excesses) {
        return Err(Unread::TooFew);
    }
    let (store, mid, tail) = scan_rest(wide, v, text, a).map_err(not_a_sheet)?;
    let limit = limit_of(store.bits);
    let end = scan_excesses(
        v.lines,
        v.windows,
        v.window_size,
        limit,
        store.precision,
        text,
        mid,
        tail,
    )
    .map_err(not_a_sheet)?;
    if end < text.len() {
        return Err(not_a_sheet(end));
    }
    Ok((v, store, mid))
}
