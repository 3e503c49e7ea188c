// `shared_store`: one weight store for two clients. `put` puts a client's set in the place of its former one, and `pass` is the u16 pass with the set that a client holds;
// a restart is `share_restarts`. The store is five lists that are lent with each call: ten `numbers`, five a client (its share; camera
// lines, windows, window size and precision of its set), the `slots`, and 8,192 `starts`, `sizes` and `excesses` a client. The contracts are the steps of the machine of `shares`.
#![tactic(auto)]

ghost use Rattle.std.specs.Prelude.{◌≡◌, length};
ghost use Rattle.shares.specs.Store.{store_of, view_of};
ghost use Rattle.shares.specs.Scratch.{scratch_of};
ghost use Rattle.shares.specs.Machine.{next, by, puts, put_answer, scratch_after, pass_answer, pass_output};

use coefficients::NotBuilt;
use plans::Request;
use refusal::Refusal;
use share_lists::{barred, find};
use share_passes::pass_at;
use share_places::place;

// A client's set, built for the 32-bit store, in the place of its former one, for any lists; refused (No. 16 first, of a retired filter; No. 10, then the builder's 1 to 8 with 7 against the share, then 9),
// the former set stays. The builder works in three lists that are lent with the call: as many doubles as the share has slots, 8,192 starts and 8,192 sizes.
pub fn put(
    numbers: &mut [u32],
    slots: &mut [i32],
    starts: &mut [u32],
    sizes: &mut [u32],
    excesses: &mut [i64],
    client: u32,
    request: Request,
    doubles: &mut [f64],
    firsts: &mut [u32],
    counts: &mut [u32],
) -> Result<u32, NotBuilt>
    ensures answer { result ≡ put_answer (view_of (store_of numbers.old slots.old starts.old sizes.old excesses.old) client) request (scratch_of doubles.old firsts.old counts.old) }
    ensures written { numbers.new ≡ (next (store_of numbers.old slots.old starts.old sizes.old excesses.old) (by client (puts request (scratch_of doubles.old firsts.old counts.old)))).numbers }
    ensures written2 { slots.new ≡ (next (store_of numbers.old slots.old starts.old sizes.old excesses.old) (by client (puts request (scratch_of doubles.old firsts.old counts.old)))).slots }
    ensures written3 { starts.new ≡ (next (store_of numbers.old slots.old starts.old sizes.old excesses.old) (by client (puts request (scratch_of doubles.old firsts.old counts.old)))).starts }
    ensures written4 { sizes.new ≡ (next (store_of numbers.old slots.old starts.old sizes.old excesses.old) (by client (puts request (scratch_of doubles.old firsts.old counts.old)))).sizes }
    ensures written5 { excesses.new ≡ (next (store_of numbers.old slots.old starts.old sizes.old excesses.old) (by client (puts request (scratch_of doubles.old firsts.old counts.old)))).excesses }
    ensures written6 { doubles.new ≡ (scratch_after (view_of (store_of numbers.old slots.old starts.old sizes.old excesses.old) client) request (scratch_of doubles.old firsts.old counts.old)).doubles }
    ensures written7 { firsts.new ≡ (scratch_after (view_of (store_of numbers.old slots.old starts.old sizes.old excesses.old) client) request (scratch_of doubles.old firsts.old counts.old)).firsts }
    ensures written8 { counts.new ≡ (scratch_after (view_of (store_of numbers.old slots.old starts.old sizes.old excesses.old) client) request (scratch_of doubles.old firsts.old counts.old)).counts }
{
    let kind = request.filter;
    if filters::retired(kind) {
        return Err(NotBuilt::Refused(Refusal::RetiredFilter));
    }
    if barred(
        numbers,
        slots.len(),
        starts.len(),
        sizes.len(),
        excesses.len(),
        client,
        doubles.len(),
        firsts.len(),
        counts.len(),
    ) {
        return Err(NotBuilt::Refused(Refusal::DoesNotFit));
    }
    place(
        numbers, slots, starts, sizes, excesses, client, request, doubles, firsts, counts,
    )
}

// The u16 pass with the set that a client holds, for any lists; refused (No. 10 of the client, then as the pass refuses) with `out` unchanged.
pub fn pass(
    numbers: &[u32],
    slots: &[i32],
    starts: &[u32],
    sizes: &[u32],
    excesses: &[i64],
    client: u32,
    src: &[u16],
    row: u32,
    first: u32,
    count: u32,
    out: &mut [u16],
) -> Result<(), Refusal>
    ensures answer { result ≡ pass_answer (view_of (store_of numbers.now slots.now starts.now sizes.now excesses.now) client) src.now row first count (length out.old) }
    ensures written { out.new ≡ pass_output (view_of (store_of numbers.now slots.now starts.now sizes.now excesses.now) client) src.now row first count out.old }
{
    let found = find(
        numbers,
        slots.len(),
        starts.len(),
        sizes.len(),
        excesses.len(),
        client,
    );
    let Some(p) = found else {
        return Err(Refusal::DoesNotFit);
    };
    pass_at(
        slots, starts, sizes, excesses, p, src, row, first, count, out,
    )
}
