// `share_places`: a set of a shared store placed in its client's part of the lists: made there by `store_sets`, its numbers, starts and sizes kept by `share_lists`. A worker
// of `shared_store`, which asks first whether the set is barred.
#![tactic(auto)]

ghost use Rattle.std.specs.Prelude.{◌≡◌, false, ◌||◌, ◌+◌, ◌*◌, length, get_or};
ghost use Rattle.made_sets.specs.Made.{made_of, answer_of};
ghost use Rattle.shares.specs.Store.{store_of, share, closed};
ghost use Rattle.shares.specs.Scratch.{scratch_of, too_short, built_in};
ghost use Rattle.shares.specs.Machine.{after};

use coefficients::NotBuilt;
use plans::Request;
use share_lists::{keep, line_base, share, slot_base};
use store_sets::make;

// The answer and the lists of a set that is not barred.
pub fn place(
    numbers: &mut [u32],
    slots: &mut [i32],
    starts: &mut [u32],
    sizes: &mut [u32],
    excesses: &mut [i64],
    client: u32,
    request: Request,
    doubles: &mut [f64],
    firsts: &mut [u32],
    counts: &mut [u32],
) -> Result<u32, NotBuilt>
    requires { closed (store_of numbers.old slots.old starts.old sizes.old excesses.old) client || too_short (share (store_of numbers.old slots.old starts.old sizes.old excesses.old) client) (scratch_of doubles.old firsts.old counts.old) ≡ false }
    ensures answer { result ≡ answer_of (made_of request (share (store_of numbers.old slots.old starts.old sizes.old excesses.old) client)) }
    ensures written { numbers.new ≡ (after (store_of numbers.old slots.old starts.old sizes.old excesses.old) client (made_of request (share (store_of numbers.old slots.old starts.old sizes.old excesses.old) client))).numbers }
    ensures written2 { slots.new ≡ (after (store_of numbers.old slots.old starts.old sizes.old excesses.old) client (made_of request (share (store_of numbers.old slots.old starts.old sizes.old excesses.old) client))).slots }
    ensures written3 { starts.new ≡ (after (store_of numbers.old slots.old starts.old sizes.old excesses.old) client (made_of request (share (store_of numbers.old slots.old starts.old sizes.old excesses.old) client))).starts }
    ensures written4 { sizes.new ≡ (after (store_of numbers.old slots.old starts.old sizes.old excesses.old) client (made_of request (share (store_of numbers.old slots.old starts.old sizes.old excesses.old) client))).sizes }
    ensures written5 { excesses.new ≡ (after (store_of numbers.old slots.old starts.old sizes.old excesses.old) client (made_of request (share (store_of numbers.old slots.old starts.old sizes.old excesses.old) client))).excesses }
    ensures written6 { doubles.new ≡ (built_in request (share (store_of numbers.old slots.old starts.old sizes.old excesses.old) client) (scratch_of doubles.old firsts.old counts.old)).doubles }
    ensures written7 { firsts.new ≡ (built_in request (share (store_of numbers.old slots.old starts.old sizes.old excesses.old) client) (scratch_of doubles.old firsts.old counts.old)).firsts }
    ensures written8 { counts.new ≡ (built_in request (share (store_of numbers.old slots.old starts.old sizes.old excesses.old) client) (scratch_of doubles.old firsts.old counts.old)).counts }
{
    let room = share(numbers, client);
    let a = slot_base(numbers, client);
    let e = a + room;
    let b = line_base(client);
    let t = b + 8192;
    let made = make(
        request,
        &mut slots[a..e],
        &mut excesses[b..t],
        doubles,
        firsts,
        counts,
    );
    keep(
        made, numbers, starts, sizes, client, request, firsts, counts,
    )
}
