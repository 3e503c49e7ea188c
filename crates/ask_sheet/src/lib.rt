// The request `sheet KIND LINES WINDOW STORE PRECISION WEIGHTS STARTS SIZES EXCESSES ROOM`, answered by `write_sheets`.
#![tactic(auto)]

use answer_lines::Output;
use filter_fields::Name;
use filters::FilterType;
use refusal::{Numbered, Refusal};
use request_fields::{Element, Fault, Kind, Words};
use write_sheets::{write_sheet16, write_sheet32};

// Whether the line is this request, which is answered then.
pub fn answer(line: &[u8], out: &mut Output<'_>) -> Result<bool, Fault> {
    let mut words = Words::new(line);
    match words.word()? {
        b"sheet" => by_store(words, out),
        _ => Ok(false),
    }
}

// What stands before the store: KIND LINES WINDOW.
#[derive(Clone, Copy)]
struct Head<'a> {
    name: Name<'a>,
    lines: u32,
    window: u32,
}

// The weights are those of the store.
fn by_store(mut words: Words<'_>, out: &mut Output<'_>) -> Result<bool, Fault> {
    let head = Head {
        name: Name::read(&mut words)?,
        lines: words.number()?,
        window: words.number()?,
    };
    match words.word()? {
        b"16" => of_16(words, head, out),
        b"32" => of_32(words, head, out),
        _ => Err(words.not(Kind::Store)),
    }
}

// The weights' room of a store stands apart: where a function leaves early several times, its lists are made zeros twice.
fn of_16(words: Words<'_>, head: Head<'_>, out: &mut Output<'_>) -> Result<bool, Fault> {
    of_store(words, head, &mut [0i16; 131072], out, write_sheet16)
}

fn of_32(words: Words<'_>, head: Head<'_>, out: &mut Output<'_>) -> Result<bool, Fault> {
    of_store(words, head, &mut [0i32; 131072], out, write_sheet32)
}

// What stands behind the store, in the rooms. The number, the length and the bytes of the list that is lent, by the writer of the store.
fn of_store<
    W: Element,
    F: FnOnce(
        FilterType,
        u32,
        u32,
        u32,
        &[W],
        &[u32],
        &[u32],
        &[i64],
        &mut [u8],
    ) -> Result<u64, Refusal>,
>(
    mut words: Words<'_>,
    head: Head<'_>,
    weights: &mut [W],
    out: &mut Output<'_>,
    write: F,
) -> Result<bool, Fault>
    requires { F.IsAlwaysCallable write }
{
    let mut starts = [0u32; 131072];
    let mut sizes = [0u32; 131072];
    let mut excesses = [0i64; 131072];
    let mut room = [0u8; 524288];
    let precision = words.number()?;
    let weights = words.list(weights)?;
    let starts = words.list(&mut starts)?;
    let sizes = words.list(&mut sizes)?;
    let excesses = words.list(&mut excesses)?;
    let room = words.room(program_streams::room(&mut room))?;
    words.end()?;
    let filter = head.name.filter()?;
    let answer = write(
        filter,
        head.lines,
        head.window,
        precision,
        weights,
        starts,
        sizes,
        excesses,
        room,
    );
    out.show(answer.number());
    out.next(answer.unwrap_or(0));
    out.byte(b' ');
    out.text(room);
    Ok(true)
}
