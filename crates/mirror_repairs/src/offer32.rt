// An offer of our own for a set of the 32-bit store.
ghost use Rattle.std.specs.Prelude.{◌≡◌, length};
ghost use Rattle.windows.specs.Set.{layout_of, set_of, stored_of};
ghost use Rattle.windows.specs.Store.{store32};
ghost use Rattle.repairs.specs.Answer.{offered_of, written_of, offered_number, offered_line};

use refusal::Numbered;

// 0, and the offer is in the first slots of `out`; or No. 1, 7, 10 or 14, and nothing is changed. `line` is the first display line without an offer, 0 where the
// answer is not 14.
#[unsafe(no_mangle)]
pub extern "C" fn mirror_offer32(
    lines: u32,
    window: u32,
    precision: u32,
    weights: &[i32],
    starts: &[u32],
    sizes: &[u32],
    excesses: &[i64],
    out: &mut [i32],
    line: &mut u32,
) -> u32
    ensures answer { result ≡ offered_number (offered_of store32 (stored_of (set_of (layout_of lines window starts.now sizes.now) weights.now) precision excesses.now) (length out.old)) }
    ensures written { out.new ≡ written_of store32 (stored_of (set_of (layout_of lines window starts.now sizes.now) weights.now) precision excesses.now) out.old }
    ensures written2 { line.new ≡ offered_line (offered_of store32 (stored_of (set_of (layout_of lines window starts.now sizes.now) weights.now) precision excesses.now) (length out.old)) }
{
    let answer = make_offers::make_offer32(
        lines, window, precision, weights, starts, sizes, excesses, out,
    );
    *line = repairs::line(answer);
    answer.number()
}
