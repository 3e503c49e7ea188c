// What is said of a text that is no sheet: the number, the byte, line and column, then the line itself with a mark under the place. Of one file among several, the place in words.
ghost use Rattle.std.specs.Prelude.{◌≤◌, length};

use crate::place;
use crate::place::Place;
use crate::streams::{err_name, out};

// No. 13.
pub fn refused(rt: HostRuntime, text: &[u8], byte: u64) {
    let Place { line, from, at } = place::of(text, byte);
    let column = at - from + 1;
    let _ = println!(rt; "refused=13 name=NotASheet byte={byte} line={line} column={column}");
    around(rt, text, from, at);
    let _ = eprint!(rt;
        "no sheet: it begins as one up to the mark at line {line}, column {column}"
    );
    err_rest(rt, at < text.len());
}

// The first bad sheet of the file that argument i names: the byte of the file, line and column.
pub fn stopped(rt: HostRuntime, i: usize, text: &[u8], byte: u64) {
    let Place { line, from, at } = place::of(text, byte);
    let column = at - from + 1;
    let _ = eprint!(rt; "no sheet in ");
    err_name(rt, i);
    let _ = eprint!(rt; ": it begins as one up to byte {byte}, line {line}, column {column}");
    err_rest(rt, at < text.len());
}

// What is at the place.
fn err_rest(rt: HostRuntime, goes_on: bool) {
    let _ = if goes_on {
        eprintln!(rt; ", and no sheet goes on so")
    } else {
        eprintln!(rt; ", where the file ends")
    };
}

// Where a shown line begins.
fn front(from: usize, at: usize) -> usize
    requires { from ≤ at }
    ensures { (from ≤ result) × (result ≤ at) }
{
    from.max(at.saturating_sub(60))
}

// Where it ends.
fn back(at: usize, to: usize) -> usize
    requires { at ≤ to }
    ensures { (at ≤ result) × (result ≤ to) }
{
    to.min(at.saturating_add(20))
}

// The line, or of a long one 60 bytes before the place and 20 after it, and the mark.
fn around(rt: HostRuntime, text: &[u8], from: usize, at: usize)
    requires { (from ≤ at) × (at ≤ length text.now) }
{
    let to = place::line_end(text, at);
    let a = front(from, at);
    let e = back(at, to);
    if from < a {
        out(rt, b"..");
    }
    visible(rt, &text[a..e]);
    if e < to {
        out(rt, b"..");
    }
    out(rt, b"\n");
    if from < a {
        out(rt, b"  ");
    }
    mark(rt, at - a);
}

// The bytes, a question mark for each that no terminal shows as one letter.
fn visible(rt: HostRuntime, part: &[u8]) {
    for &b in part {
        out(rt, &[shown(b)]);
    }
}

// One byte as it is shown.
fn shown(b: u8) -> u8 {
    match b {
        b' '..=b'~' => b,
        _ => b'?',
    }
}

// A mark behind so many bytes.
fn mark(rt: HostRuntime, n: usize) {
    let _ = println!(rt; "{:n$}^", "");
}
