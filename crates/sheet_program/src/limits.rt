// The program's own limits, which are no refusal of document 01.
use refusal::Refusal;

// Too few of what the sheet needs.
fn too_large(rt: HostRuntime, what: &str, limit: u32) {
    let _ = println!(rt; "toolarge={what} limit={limit}");
    let _ = eprintln!(rt; "the sheet needs more {what} than this program has: {limit}");
}

// The lists of the set are too short.
pub(crate) fn slots(rt: HostRuntime) {
    too_large(rt, "slots", 65536);
}

// The limit that a refused writer of the program's lists has reached.
pub(crate) fn reached(rt: HostRuntime, refusal: Refusal) {
    match refusal {
        Refusal::NoRoom => too_large(rt, "bytes", 524288),
        _ => slots(rt),
    }
}
