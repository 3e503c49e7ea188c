// The request `book TEXT`, answered by `book` and `write_report`: the report of a text of sheets, as hexadecimal digits.
#![tactic(auto)]

use answer_lines::Output;
use refusal::Refusal;
use request_fields::{Fault, Words};

// Whether the line is this request, which is answered then.
pub fn answer(line: &[u8], out: &mut Output<'_>) -> Result<bool, Fault> {
    let mut words = Words::new(line);
    match words.word()? {
        b"book" => report(words, out),
        _ => Ok(false),
    }
}

// The text of the line, and its report, which has at most 188 bytes.
fn report(mut words: Words<'_>, out: &mut Output<'_>) -> Result<bool, Fault> {
    let mut text = [0u8; 131072];
    let mut room = [0u8; 256];
    let text = words.text(&mut text)?;
    words.end()?;
    let r = book::book(text);
    let answer = book_text::write_report(r, &mut room);
    shown(answer, &room, out);
    Ok(true)
}

// The first bytes of the list, which are the report; none where it has no room, which does not come.
fn shown(answer: Result<u64, Refusal>, room: &[u8], out: &mut Output<'_>) {
    let Ok(length) = answer else {
        return;
    };
    if let Some(report) = room.get(..length as usize) {
        out.text(report);
    }
}
