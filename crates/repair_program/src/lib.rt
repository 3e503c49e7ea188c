// The program `repair_sheet`: the sheet of a file with our own offer taken over, or the first display line that has none. `sheet_files` brings the text,
// `reader` judges it; `repairing` makes the offer for the set's own part of the lists and takes it over, with the functions of the sheet's
// store (`stored`), `printing` prints the sheet, `refused` says why nothing is repaired. Standard output has the sheet or the answer, standard error the
// reason for a person. No contract says what is read or printed, since none could speak of the streams; every function is safe at every argument.
#![tactic(auto)]

mod printing;
mod refused;
mod repairing;
mod stored;

use reader::Unread;
use sheet_scan::{Sizes, StoreLines};

// Answers the program's one argument, a file's name. The text stands here, apart from what looks at it.
pub fn run(rt: HostRuntime) {
    let mut text = [0u8; 524288];
    answer(rt, sheet_files::room(&mut text));
}

// Reads the file, and what it has.
fn answer(rt: HostRuntime, room: &mut [u8]) {
    if let Some(text) = sheet_files::text(rt, room) {
        judge(rt, text);
    }
}

// The lists of `read`, and nothing else: one call. They are as long as those of `read_back`.
fn judge(rt: HostRuntime, text: &[u8]) {
    let mut weights = [0i32; 131072];
    let mut starts = [0u32; 8192];
    let mut sizes = [0u32; 8192];
    let mut excesses = [0i64; 8192];
    read(
        rt,
        text,
        &mut weights,
        &mut starts,
        &mut sizes,
        &mut excesses,
    );
}

// The sheet, read as one of either store.
fn read(
    rt: HostRuntime,
    text: &[u8],
    weights: &mut [i32],
    starts: &mut [u32],
    sizes: &mut [u32],
    excesses: &mut [i64],
) {
    let answer = reader::read_sheet(text, weights, starts, sizes, excesses);
    let Ok((head, store)) = answer else {
        return unread(rt, answer, text);
    };
    if store.bits == 16 {
        return judge16(rt, text, starts, sizes, excesses);
    }
    repair32(rt, head, store.precision, weights, starts, sizes, excesses);
}

// The list of the offer, and nothing else: one call. A text that is refused needs none, so it stays out of the frame of `read`.
#[inline(never)]
fn repair32(
    rt: HostRuntime,
    head: Sizes,
    precision: u32,
    weights: &mut [i32],
    starts: &[u32],
    sizes: &[u32],
    excesses: &mut [i64],
) {
    let mut offer = [0i32; 131072];
    repairing::repair(
        rt, head, precision, weights, starts, sizes, excesses, &mut offer,
    );
}

// The lists of `read16`, of the weights' own size; they stay out of the frame of `read` too.
#[inline(never)]
fn judge16(
    rt: HostRuntime,
    text: &[u8],
    starts: &mut [u32],
    sizes: &mut [u32],
    excesses: &mut [i64],
) {
    let mut weights = [0i16; 131072];
    let mut offer = [0i16; 131072];
    read16(rt, text, &mut weights, starts, sizes, excesses, &mut offer);
}

// One of the 16-bit store, into a list of that store.
fn read16(
    rt: HostRuntime,
    text: &[u8],
    weights: &mut [i16],
    starts: &mut [u32],
    sizes: &mut [u32],
    excesses: &mut [i64],
    offer: &mut [i16],
) {
    let answer = reader::read_sheet16(text, weights, starts, sizes, excesses);
    let Ok((head, store)) = answer else {
        return unread(rt, answer, text);
    };
    repairing::repair(
        rt,
        head,
        store.precision,
        weights,
        starts,
        sizes,
        excesses,
        offer,
    );
}

// Why there is no set.
fn unread(rt: HostRuntime, answer: Result<(Sizes, StoreLines), Unread>, text: &[u8]) {
    match answer {
        Ok((_, _)) => return,
        Err(Unread::TooFew) => sheet_files::too_large(rt),
        Err(Unread::NotASheet(byte)) => sheet_files::refused(rt, text, byte),
    }
}
