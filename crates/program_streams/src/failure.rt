// What failed, and what the system said of it.
ghost use Rattle.std.specs.Prelude.{◌≤◌, length};

use crate::writing::err;
use std::io::{Cursor, Error, Write};

// The system's words, without the number that stands in brackets behind them.
fn words(text: &[u8]) -> &[u8]
    ensures { length result.now ≤ length text.now }
{
    match text.iter().rposition(|&b| b == b'(') {
        None | Some(0) => text,
        Some(bracket) => &text[..bracket - 1],
    }
}

// On standard error: what failed, the system's words, and the line's end.
pub fn failed(rt: HostRuntime, what: &[u8], why: Error) {
    let mut to = Cursor::new([0u8; 320]);
    let _ = write!(to, "{why}");
    let n = to.position() as usize;
    let text = to.into_inner();
    err(rt, what);
    err(rt, b": ");
    if let Some(said) = text.get(..n) {
        err(rt, words(said));
    }
    err(rt, b"\n");
}
