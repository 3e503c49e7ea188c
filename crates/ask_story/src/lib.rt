// The request `story LINES ROW WINDOW PRECISION WEIGHTS STARTS SIZES EXCESSES SAMPLES LINE COLUMN ROOM`, answered by `story`.
#![tactic(auto)]

use answer_lines::Output;
use refusal::Numbered;
use request_fields::{Fault, Words};
use windows::DisplayLine;

// Whether the line is this request, which is answered then.
pub fn answer(line: &[u8], out: &mut Output<'_>) -> Result<bool, Fault> {
    let mut words = Words::new(line);
    match words.word()? {
        b"story" => tell(words, out),
        _ => Ok(false),
    }
}

// The number, the length and the bytes of the list that is lent.
fn tell(mut words: Words<'_>, out: &mut Output<'_>) -> Result<bool, Fault> {
    let mut weights = [0i32; 131072];
    let mut starts = [0u32; 131072];
    let mut sizes = [0u32; 131072];
    let mut excesses = [0i64; 131072];
    let mut samples = [0u16; 131072];
    let mut room = [0u8; 524288];
    let lines = words.number()?;
    let row = words.number()?;
    let window = words.number()?;
    let precision = words.number()?;
    let weights = words.list(&mut weights)?;
    let starts = words.list(&mut starts)?;
    let sizes = words.list(&mut sizes)?;
    let excesses = words.list(&mut excesses)?;
    let samples = words.list(&mut samples)?;
    let line = DisplayLine(words.number()?);
    let column = words.number()?;
    let room = words.room(program_streams::room(&mut room))?;
    words.end()?;
    let answer = story::story(
        samples, lines, row, weights, starts, sizes, excesses, window, precision, line, column,
        room,
    );
    out.show(answer.number());
    out.next(story::length(answer));
    out.byte(b' ');
    out.text(room);
    Ok(true)
}
