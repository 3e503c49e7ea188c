// How far the pass is, and why it ends before the last column.
use refusal::{Numbered, Refusal};
use std::io::Error;

// Why a pass ends before its last column: the frame could not be read, the pass refused, or what goes out could not be written, as there was no more room
// or the system said no.
#[derive(Clone, Copy)]
pub(crate) enum Ended {
    Frame,
    Pass(Refusal),
    Full,
    Unwritten(Error),
}

// Neither two words nor four.
pub(crate) fn words(rt: HostRuntime) {
    let _ = println!(rt; "unread=words why=count");
    let _ = eprintln!(rt; "SHEET FRAME are wanted, or SHEET FRAME FIRST COUNT");
}

// Columns past the row.
pub(crate) fn outside(rt: HostRuntime, first: u32, count: u32, row: u32) {
    let _ = println!(rt; "unread=columns why=outside");
    let _ = eprintln!(rt; "{count} columns from {first} on do not lie in a row of {row} samples");
}

// The pass's own refusal.
fn refused(rt: HostRuntime, refusal: Refusal) {
    let number = refusal.number();
    let _ = println!(rt; "refused=pass");
    let _ = eprintln!(rt; "the pass refuses the sheet: No. {number}");
}

// Why a pass ended. What the system said of a write stands behind it; of one that it cut short it says nothing.
pub(crate) fn told(rt: HostRuntime, why: Ended) {
    match why {
        Ended::Frame => frame_files::no_frame(rt),
        Ended::Pass(refusal) => refused(rt, refusal),
        Ended::Full => {
            let _ = eprintln!(rt; "the output cannot be written: no more room");
        }
        Ended::Unwritten(error) => {
            program_streams::failed(rt, b"the output cannot be written", error);
        }
    }
}

// So many columns of so many are written. The last such line says that the frame is whole.
pub(crate) fn progress(rt: HostRuntime, at: u32, count: u32) {
    let _ = eprintln!(rt; "columns={at} of={count}");
}
