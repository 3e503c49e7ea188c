// What is said where there is no frame or no number.
use crate::shape::bytes_in;
use sheet_files::streams::err_name;

// An argument that is no number.
pub fn no_number(rt: HostRuntime, key: &str, word: &str) {
    let _ = println!(rt; "unread={key} why=number");
    let _ = eprintln!(rt; "{word} is no whole number");
}

// The name of the frame's file.
fn err_frame(rt: HostRuntime) {
    err_name(rt, 2);
}

// The frame could not be opened or read.
pub fn no_frame(rt: HostRuntime) {
    let _ = println!(rt; "unread=frame why=unreadable");
    let _ = eprint!(rt; "the frame cannot be read: ");
    err_frame(rt);
    let _ = eprintln!(rt);
}

// So many bytes are no rows of samples for so many lines.
pub(crate) fn misfit(rt: HostRuntime, bytes: u64, lines: u32, wide: bool) {
    let bits = bytes_in(8, wide);
    let _ = println!(rt; "unread=frame why=size bytes={bytes} lines={lines}");
    err_frame(rt);
    let _ = eprintln!(rt;
        " is no frame of the sheet's camera lines: its {bytes} bytes are no whole number of {bits}-bit samples for each of {lines} lines"
    );
}

// Rows of more samples than a row has.
pub(crate) fn long_rows(rt: HostRuntime, row: u64) {
    let _ = println!(rt; "unread=frame why=long row={row} limit=32768");
    err_frame(rt);
    let _ = eprintln!(rt;
        " has rows of {row} samples for the sheet's camera lines, and 32768 is the most"
    );
}
