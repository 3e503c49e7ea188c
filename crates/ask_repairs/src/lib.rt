// The requests `accept STORE LINES WINDOW PRECISION WEIGHTS STARTS SIZES EXCESSES WINDOW PRECISION STARTS SIZES WEIGHTS`, an offer judged, and
// `offer STORE LINES WINDOW PRECISION WEIGHTS STARTS SIZES EXCESSES NOUT`, an offer of our own, answered by `accept_offers` and `make_offers`. Each is one piece of
// code for the weights of both stores, which is handed the function of the store. Lists named `other` are the offer's.
#![tactic(auto)]

use accept_offers::{accept_offer16, accept_offer32};
use answer_lines::{Output, Show};
use make_offers::{make_offer16, make_offer32};
use refusal::{Numbered, Refusal};
use repairs::NotOffered;
use request_fields::{Element, Fault, Kind, Words};

// Whether the line is one of these requests, which is answered then.
pub fn answer(line: &[u8], out: &mut Output<'_>) -> Result<bool, Fault> {
    let mut words = Words::new(line);
    match words.word()? {
        b"accept" => accept(words, out),
        b"offer" => offer(words, out),
        _ => Ok(false),
    }
}

// An offer judged, by the store.
fn accept(mut words: Words<'_>, out: &mut Output<'_>) -> Result<bool, Fault> {
    match words.word()? {
        b"16" => accept16(words, out),
        b"32" => accept32(words, out),
        _ => Err(words.not(Kind::Store)),
    }
}

// The weights' rooms of a store stand apart: where a function leaves early several times, its lists are made zeros twice.
fn accept16(words: Words<'_>, out: &mut Output<'_>) -> Result<bool, Fault> {
    judge(
        words,
        &mut [0i16; 131072],
        &mut [0i16; 131072],
        out,
        |lines: u32, window: u32, precision: u32, weights: &mut [i16], starts: &[u32], sizes: &[u32], excesses: &mut [i64], other_window: u32, other_precision: u32, other_starts: &[u32], other_sizes: &[u32], other_weights: &[i16]| {
            accept_offer16(
                lines,
                window,
                precision,
                weights,
                starts,
                sizes,
                excesses,
                other_window,
                other_precision,
                other_starts,
                other_sizes,
                other_weights,
            )
        },
    )
}

fn accept32(words: Words<'_>, out: &mut Output<'_>) -> Result<bool, Fault> {
    judge(
        words,
        &mut [0i32; 131072],
        &mut [0i32; 131072],
        out,
        |lines: u32, window: u32, precision: u32, weights: &mut [i32], starts: &[u32], sizes: &[u32], excesses: &mut [i64], other_window: u32, other_precision: u32, other_starts: &[u32], other_sizes: &[u32], other_weights: &[i32]| {
            accept_offer32(
                lines,
                window,
                precision,
                weights,
                starts,
                sizes,
                excesses,
                other_window,
                other_precision,
                other_starts,
                other_sizes,
                other_weights,
            )
        },
    )
}

// The number, and the stored weights and excesses as they are afterwards.
fn judge<
    W: Element + Show,
    F: FnOnce(
        u32,
        u32,
        u32,
        &mut [W],
        &[u32],
        &[u32],
        &mut [i64],
        u32,
        u32,
        &[u32],
        &[u32],
        &[W],
    ) -> Result<(), Refusal>,
>(
    mut words: Words<'_>,
    weights: &mut [W],
    other_weights: &mut [W],
    out: &mut Output<'_>,
    accept_offer: F,
) -> Result<bool, Fault>
    requires { F.IsAlwaysCallable accept_offer }
{
    // The starts and the sizes of both sets, one behind the other: a line has no more elements in all its lists than one list takes.
    let mut windows = [0u32; 131072];
    let mut excesses = [0i64; 131072];
    let lines = words.number()?;
    let window = words.number()?;
    let precision = words.number()?;
    let weights = words.list(weights)?;
    let n = words.list(&mut windows)?.len();
    let (starts, rest) = windows.split_at_mut(n);
    let n = words.list(rest)?.len();
    let (sizes, rest) = rest.split_at_mut(n);
    let excesses = words.list(&mut excesses)?;
    let other_window = words.number()?;
    let other_precision = words.number()?;
    let n = words.list(rest)?.len();
    let (other_starts, rest) = rest.split_at_mut(n);
    let other_sizes = words.list(rest)?;
    let other_weights = words.list(other_weights)?;
    words.end()?;
    let answer = accept_offer(
        lines,
        window,
        precision,
        weights,
        starts,
        sizes,
        excesses,
        other_window,
        other_precision,
        other_starts,
        other_sizes,
        other_weights,
    );
    out.show(answer.number());
    out.byte(b' ');
    out.list(weights);
    out.byte(b' ');
    out.list(excesses);
    Ok(true)
}

// An offer of our own, by the store.
fn offer(mut words: Words<'_>, out: &mut Output<'_>) -> Result<bool, Fault> {
    match words.word()? {
        b"16" => offer16(words, out),
        b"32" => offer32(words, out),
        _ => Err(words.not(Kind::Store)),
    }
}

fn offer16(words: Words<'_>, out: &mut Output<'_>) -> Result<bool, Fault> {
    make(
        words,
        &mut [0i16; 131072],
        &mut [0i16; 131072],
        out,
        |lines: u32, window: u32, precision: u32, weights: &[i16], starts: &[u32], sizes: &[u32], excesses: &[i64], lent: &mut [i16]| {
            make_offer16(
                lines, window, precision, weights, starts, sizes, excesses, lent,
            )
        },
    )
}

fn offer32(words: Words<'_>, out: &mut Output<'_>) -> Result<bool, Fault> {
    make(
        words,
        &mut [0i32; 131072],
        &mut [0i32; 131072],
        out,
        |lines: u32, window: u32, precision: u32, weights: &[i32], starts: &[u32], sizes: &[u32], excesses: &[i64], lent: &mut [i32]| {
            make_offer32(
                lines, window, precision, weights, starts, sizes, excesses, lent,
            )
        },
    )
}

// The number, the line and the list that is lent.
fn make<
    W: Element + Show,
    F: FnOnce(u32, u32, u32, &[W], &[u32], &[u32], &[i64], &mut [W]) -> Result<(), NotOffered>,
>(
    mut words: Words<'_>,
    weights: &mut [W],
    lent: &mut [W],
    out: &mut Output<'_>,
    make_offer: F,
) -> Result<bool, Fault>
    requires { F.IsAlwaysCallable make_offer }
{
    let mut starts = [0u32; 131072];
    let mut sizes = [0u32; 131072];
    let mut excesses = [0i64; 131072];
    let lines = words.number()?;
    let window = words.number()?;
    let precision = words.number()?;
    let weights = words.list(weights)?;
    let starts = words.list(&mut starts)?;
    let sizes = words.list(&mut sizes)?;
    let excesses = words.list(&mut excesses)?;
    let lent = words.lent(lent)?;
    words.end()?;
    let answer = make_offer(
        lines, window, precision, weights, starts, sizes, excesses, lent,
    );
    out.show(answer.number());
    out.next(repairs::line(answer));
    out.byte(b' ');
    out.list(lent);
    Ok(true)
}
