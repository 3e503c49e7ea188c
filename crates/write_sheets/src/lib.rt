// `write_sheets`: `write_sheet16` and `write_sheet32` judge a set (`excesses`) and the room, then lay its text (`sheet_text_value`, of `sheet`) over the beginning of the lent list.
// The text's length comes from the same run over a list of one byte, since what falls past a list's end is not written and counted all the same. Both are one
// function over the weights of any store.
#![tactic(auto)]

mod writer;

ghost use Rattle.std.specs.Prelude.{◌≡◌, length};
ghost use Rattle.windows.specs.Set.{layout_of, set_of, stored_of};
ghost use Rattle.windows.specs.Store.{store16, store32};
ghost use Rattle.sheet.specs.Answer.{answer_of, written_of};

use filters::FilterType;
use refusal::Refusal;
pub use writer::write;

// The sheet of a set with weights of 16 bits, or nothing, for any numbers and lists.
pub fn write_sheet16(
    kind: FilterType,
    lines: u32,
    window_size: u32,
    precision: u32,
    weights: &[i16],
    starts: &[u32],
    sizes: &[u32],
    excesses: &[i64],
    out: &mut [u8],
) -> Result<u64, Refusal>
    ensures answer { result ≡ answer_of kind store16 (stored_of (set_of (layout_of lines window_size starts.now sizes.now) weights.now) precision excesses.now) (length out.old) }
    ensures written { out.new ≡ written_of kind store16 (stored_of (set_of (layout_of lines window_size starts.now sizes.now) weights.now) precision excesses.now) out.old }
{
    write::<i16>(
        kind,
        lines,
        window_size,
        precision,
        weights,
        starts,
        sizes,
        excesses,
        out,
    )
}

// The sheet of a set with weights of 32 bits, or nothing, for any numbers and lists.
pub fn write_sheet32(
    kind: FilterType,
    lines: u32,
    window_size: u32,
    precision: u32,
    weights: &[i32],
    starts: &[u32],
    sizes: &[u32],
    excesses: &[i64],
    out: &mut [u8],
) -> Result<u64, Refusal>
    ensures answer { result ≡ answer_of kind store32 (stored_of (set_of (layout_of lines window_size starts.now sizes.now) weights.now) precision excesses.now) (length out.old) }
    ensures written { out.new ≡ written_of kind store32 (stored_of (set_of (layout_of lines window_size starts.now sizes.now) weights.now) precision excesses.now) out.old }
{
    write::<i32>(
        kind,
        lines,
        window_size,
        precision,
        weights,
        starts,
        sizes,
        excesses,
        out,
    )
}
