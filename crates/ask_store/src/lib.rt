// The request `store SLOTS CALLS` (docs/PROTOCOL.md), answered by `shared_store`: a store of so many slots, and calls of its two clients one after the other. All calls
// are looked at before the first is made, so that a line with a bad one is answered as bad and nothing is run.
#![tactic(auto)]

mod call;
mod store;

use answer_lines::Output;
use call::Call;
use request_fields::{Fault, Kind, Words};

// Whether the line is this request, which is answered then.
pub fn answer(line: &[u8], out: &mut Output<'_>) -> Result<bool, Fault> {
    let mut words = Words::new(line);
    match words.word()? {
        b"store" => calls(words, out),
        _ => Ok(false),
    }
}

// The calls, joined by `/`, and their answers.
fn calls(mut words: Words<'_>, out: &mut Output<'_>) -> Result<bool, Fault> {
    let slots = words.length()?;
    let calls = words.word()?;
    let bad = words.not(Kind::Calls);
    words.end()?;
    if !calls.split(|b| *b == b'/').all(|part| Call::is_one(part)) {
        return Err(bad);
    }
    make(slots, calls, out)?;
    Ok(true)
}

// The calls made one after the other with an empty store of so many slots, their answers joined by `/`.
fn make(slots: usize, calls: &[u8], out: &mut Output<'_>) -> Result<(), Fault> {
    let mut numbers = [0u32; 10];
    let mut weights = [0i32; 131072];
    let mut starts = [0u32; 16384];
    let mut sizes = [0u32; 16384];
    let mut excesses = [0i64; 16384];
    make_each(
        slots,
        calls,
        &mut numbers,
        &mut weights,
        &mut starts,
        &mut sizes,
        &mut excesses,
        out,
    )
}

// The same, with the lists of the store.
fn make_each(
    slots: usize,
    calls: &[u8],
    numbers: &mut [u32],
    weights: &mut [i32],
    starts: &mut [u32],
    sizes: &mut [u32],
    excesses: &mut [i64],
    out: &mut Output<'_>,
) -> Result<(), Fault> {
    let n = slots.min(weights.len());
    let slots = &mut weights[..n];
    for (i, part) in calls.split(|b| *b == b'/').enumerate() {
        if 0 < i {
            out.byte(b'/');
        }
        let call = Call::read(part)?;
        store::make(call, numbers, slots, starts, sizes, excesses, out)?;
    }
    Ok(())
}
