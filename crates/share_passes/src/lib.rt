// `share_passes`: the u16 pass with a set that stands in parts of the lists of a shared store. A worker of `shared_store`, which finds the place.
#![tactic(auto)]

ghost use Rattle.std.specs.Prelude.{◌≡◌, ◌≤◌, length};
ghost use Rattle.vertical.specs.U16.{passed_u16, written_u16};
ghost use Rattle.share_passes.specs.Inner.{set_in};

use refusal::Refusal;
use share_lists::Place;
use vertical::Frame;
use vertical_u16::vert_convolution_u16;

// The pass over the slots, starts, sizes and excesses of a place.
pub fn pass_at(
    slots: &[i32],
    starts: &[u32],
    sizes: &[u32],
    excesses: &[i64],
    at: Place,
    src: &[u16],
    row: u32,
    first: u32,
    count: u32,
    out: &mut [u16],
) -> Result<(), Refusal>
    requires from_le_to { (at.from ≤ at.to) × ((at.to ≤ length slots.now) × ((at.head ≤ at.tail) × (at.tail ≤ length starts.now))) }
    requires tail_in_bounds { (at.tail ≤ length sizes.now) × (at.tail ≤ length excesses.now) }
    ensures answer { result ≡ passed_u16 (set_in at slots.now starts.now sizes.now excesses.now) (length src.now) row first count (length out.old) }
    ensures written { out.new ≡ written_u16 (set_in at slots.now starts.now sizes.now excesses.now) src.now row first count out.old }
{
    let a = at.from;
    let e = at.to;
    let b = at.head;
    let t = at.tail;
    let frame = Frame {
        lines: at.lines,
        row: row,
        first: first,
        count: count,
    };
    vert_convolution_u16(
        src,
        frame,
        &slots[a..e],
        &starts[b..t],
        &sizes[b..t],
        &excesses[b..t],
        at.window,
        at.precision,
        out,
    )
}
