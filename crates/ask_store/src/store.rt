// Calls made with the lists of `shared_store`. They are lent one by one: for a struct of them, of which one is written while another is read, the check has no
// rule yet.
use crate::call::Call;
use answer_lines::Output;
use coefficients::NotBuilt;
use plans::Request;
use refusal::Numbered;
use request_fields::{Fault, Words};

// A call and its answer.
pub(crate) fn make(
    call: Call<'_>,
    numbers: &mut [u32],
    slots: &mut [i32],
    starts: &mut [u32],
    sizes: &mut [u32],
    excesses: &mut [i64],
    out: &mut Output<'_>,
) -> Result<(), Fault> {
    match call {
        Call::Restart { first, second } => {
            let answer = share_restarts::restart(
                numbers, slots, starts, sizes, excesses, first, second,
            );
            out.show(answer.number());
            Ok(())
        }
        Call::Put { client, request } => {
            show(
                put(numbers, slots, starts, sizes, excesses, client, request),
                out,
            );
            Ok(())
        }
        Call::Pass {
            client,
            row,
            first,
            count,
            lists,
        } => pass(
            numbers, slots, starts, sizes, excesses, client, row, first, count, lists, out,
        ),
    }
}

// A put, with the room that it works in.
fn put(
    numbers: &mut [u32],
    slots: &mut [i32],
    starts: &mut [u32],
    sizes: &mut [u32],
    excesses: &mut [i64],
    client: u32,
    request: Request,
) -> Result<u32, NotBuilt> {
    let mut doubles = [0.0f64; 131072];
    let mut firsts = [0u32; 8192];
    let mut counts = [0u32; 8192];
    shared_store::put(
        numbers,
        slots,
        starts,
        sizes,
        excesses,
        client,
        request,
        &mut doubles,
        &mut firsts,
        &mut counts,
    )
}

// The number of a put's answer, the first blank line, the window size.
fn show(built: Result<u32, NotBuilt>, out: &mut Output<'_>) {
    out.show(built.number());
    out.byte(b':');
    out.show(coefficients::line(built));
    out.byte(b':');
    out.show(coefficients::window_size(built));
}

// A pass: its number and the output.
fn pass(
    numbers: &[u32],
    slots: &[i32],
    starts: &[u32],
    sizes: &[u32],
    excesses: &[i64],
    client: u32,
    row: u32,
    first: u32,
    count: u32,
    mut lists: Words<'_>,
    out: &mut Output<'_>,
) -> Result<(), Fault> {
    let mut samples = [0u16; 131072];
    let mut lent = [0u16; 131072];
    let samples = lists.taken(&mut samples)?;
    let lent = lists.lent(&mut lent)?;
    let answer = shared_store::pass(
        numbers, slots, starts, sizes, excesses, client, samples, row, first, count, lent,
    );
    out.show(answer.number());
    out.byte(b':');
    out.list(lent);
    Ok(())
}
