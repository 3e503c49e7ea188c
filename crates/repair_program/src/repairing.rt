// One set, repaired: our own offer, and the judge of it.
use crate::stored::Stored;
use crate::{printing, refused};
use refusal::Numbered;
use sheet_scan::Sizes;

// The set's own part of the lists that it was read into, repaired; the offer is made in a list that is as long as that of the weights.
pub(crate) fn repair<W: Stored>(
    rt: HostRuntime,
    head: Sizes,
    precision: u32,
    weights: &mut [W],
    starts: &[u32],
    sizes: &[u32],
    excesses: &mut [i64],
    offer: &mut [W],
) {
    let n = head.windows as usize;
    let Some(slots) = n.checked_mul(head.window_size as usize) else {
        return sheet_files::too_large(rt);
    };
    if weights.len() < slots || offer.len() < slots {
        return sheet_files::too_large(rt);
    }
    if starts.len() < n || sizes.len() < n || excesses.len() < n {
        return sheet_files::too_large(rt);
    }
    offered(
        rt,
        head,
        precision,
        &mut weights[..slots],
        &starts[..n],
        &sizes[..n],
        &mut excesses[..n],
        &mut offer[..slots],
    );
}

// The offer.
fn offered<W: Stored>(
    rt: HostRuntime,
    head: Sizes,
    precision: u32,
    weights: &mut [W],
    starts: &[u32],
    sizes: &[u32],
    excesses: &mut [i64],
    offer: &mut [W],
) {
    let answer = W::make_offer(
        head.lines,
        head.window_size,
        precision,
        weights,
        starts,
        sizes,
        excesses,
        offer,
    );
    let Ok(()) = answer else {
        return refused::not_offered(rt, answer, sizes, excesses);
    };
    accepted(rt, head, precision, weights, starts, sizes, excesses, offer);
}

// The offer judged and taken over.
fn accepted<W: Stored>(
    rt: HostRuntime,
    head: Sizes,
    precision: u32,
    weights: &mut [W],
    starts: &[u32],
    sizes: &[u32],
    excesses: &mut [i64],
    offer: &[W],
) {
    let answer = W::accept_offer(
        head.lines,
        head.window_size,
        precision,
        weights,
        starts,
        sizes,
        excesses,
        head.window_size,
        precision,
        starts,
        sizes,
        offer,
    );
    let Ok(()) = answer else {
        return refused::number(rt, answer.number());
    };
    printing::print(rt, head, precision, weights, starts, sizes, excesses);
}
