// What is said where there is no story: the words, or a refusal.
use crate::told::Asked;
use refusal::{Numbered, Refusal};

// Fewer arguments than four.
pub(crate) fn missing(rt: HostRuntime) {
    let _ = println!(rt; "unread=words why=missing");
    let _ = eprintln!(rt; "four words are wanted: SHEET FRAME LINE COLUMN");
}

// More than four and `draw`.
pub(crate) fn too_many(rt: HostRuntime) {
    let _ = println!(rt; "unread=words why=many");
    let _ = eprintln!(rt; "more words than SHEET FRAME LINE COLUMN were given");
}

// A refusal: the place, and where the sheet and the frame end.
pub(crate) fn refused(rt: HostRuntime, refusal: Refusal, q: Asked) {
    let number = refusal.number();
    let _ = println!(rt;
        "refused={number} line={} lines={} column={} columns={}",
        q.line, q.windows, q.column, q.row
    );
    if q.windows <= q.line {
        let _ = eprintln!(rt; "the sheet has no such display line; lines are counted from 0");
    }
    if q.row <= q.column {
        let _ = eprintln!(rt; "the frame has no such column; columns are counted from 0");
    }
}
