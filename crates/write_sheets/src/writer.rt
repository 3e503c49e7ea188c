// The sheet of a set with weights of either store.
ghost use Rattle.std.specs.Prelude.{◌≡◌, ◌^◌, ◌<◌, length};
ghost use Rattle.text.specs.Text.{laid, reached};
ghost use Rattle.windows.specs.Set.{layout_of, set_of, stored_of};
ghost use Rattle.windows.specs.Fit.{Fits};
ghost use Rattle.sheet.specs.Text.{sheet_text_value};
ghost use Rattle.sheet.specs.Answer.{answer_of, written_of};

use excesses::stored_fits;
use filters::FilterType;
use refusal::Refusal;
use sheet_text::{put_excesses, put_head, put_windows};
use windows::{Weight, sides_fit};

// The whole sheet.
fn put_sheet<W: Weight>(
    kind: FilterType,
    lines: u32,
    window_size: u32,
    precision: u32,
    weights: &[W],
    starts: &[u32],
    sizes: &[u32],
    excesses: &[i64],
    out: &mut [u8],
) -> usize
    requires { Fits (layout_of lines window_size starts.now sizes.now) (length weights.now) }
    ensures answer { result ≡ reached 0 (length (sheet_text_value kind W.STORE (stored_of (set_of (layout_of lines window_size starts.now sizes.now) (W.values weights.now)) precision excesses.now))) }
    ensures written { out.new ≡ laid out.old 0 (sheet_text_value kind W.STORE (stored_of (set_of (layout_of lines window_size starts.now sizes.now) (W.values weights.now)) precision excesses.now)) }
{
    let p = put_head(
        kind,
        lines as u64,
        starts.len() as u64,
        window_size as u64,
        W::STORE.limit as u64 + 1,
        precision as u64,
        0,
        out,
    );
    let q = put_windows(starts, sizes, window_size as usize, weights, p, out);
    put_excesses(excesses, q, out)
}

// The sheet of a set, or nothing, for any numbers and lists.
pub fn write<W: Weight>(
    kind: FilterType,
    lines: u32,
    window_size: u32,
    precision: u32,
    weights: &[W],
    starts: &[u32],
    sizes: &[u32],
    excesses: &[i64],
    out: &mut [u8],
) -> Result<u64, Refusal>
    ensures answer { result ≡ answer_of kind W.STORE (stored_of (set_of (layout_of lines window_size starts.now sizes.now) (W.values weights.now)) precision excesses.now) (length out.old) }
    ensures written { out.new ≡ written_of kind W.STORE (stored_of (set_of (layout_of lines window_size starts.now sizes.now) (W.values weights.now)) precision excesses.now) out.old }
{
    if !sides_fit(lines, starts.len()) {
        return Err(Refusal::BadSide);
    }
    if !stored_fits(
        lines,
        window_size,
        precision,
        weights,
        starts,
        sizes,
        excesses,
    ) {
        return Err(Refusal::DoesNotFit);
    }
    let mut none = [0u8; 1];
    let n = put_sheet(
        kind,
        lines,
        window_size,
        precision,
        weights,
        starts,
        sizes,
        excesses,
        &mut none,
    );
    if out.len() < n {
        return Err(Refusal::NoRoom);
    }
    put_sheet(
        kind,
        lines,
        window_size,
        precision,
        weights,
        starts,
        sizes,
        excesses,
        out,
    );
    Ok(n as u64)
}
