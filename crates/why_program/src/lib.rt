// The program `why_pixel`: the story of one output sample, of a sheet and a frame in files. `sheet_files` brings the sheet, `frame` one column of the frame; the story is
// that of a frame one column wide, which the promise on strips allows. `said` has what is not a story, `drawn` and `bars` the window for a terminal. No contract says what is
// read or printed, since none could speak of the streams; every function is safe at every argument.
#![tactic(auto)]

mod bars;
mod drawn;
mod figures;
mod frame;
mod said;
mod set_lists;
mod told;

use figures::NoNumber;
use reader::Unread;
use set_lists::Lists;
use sheet_scan::{Sizes, StoreLines};

// Answers the program's arguments: SHEET FRAME LINE COLUMN, and `draw` where the window is to be drawn too. The text stands here, apart from what looks at it.
pub fn run(rt: HostRuntime) {
    let mut text = [0u8; 524288];
    let count = program_streams::argument_count(rt);
    if count < 5 {
        return said::missing(rt);
    }
    if 6 < count {
        return said::too_many(rt);
    }
    answer(rt, sheet_files::room(&mut text));
}

// Reads the sheet's file, and what it has.
fn answer(rt: HostRuntime, room: &mut [u8]) {
    if let Some(text) = sheet_files::text_of(rt, 1, room) {
        judge(rt, text);
    }
}

// The lists of `read`, and nothing else: one call. They are those of `read_back`.
fn judge(rt: HostRuntime, text: &[u8]) {
    let mut weights = [0i32; 131072];
    let mut starts = [0u32; 8192];
    let mut sizes = [0u32; 8192];
    let mut excesses = [0i64; 8192];
    read(
        rt,
        text,
        &mut weights,
        &mut starts,
        &mut sizes,
        &mut excesses,
    );
}

// The sheet, read and asked.
fn read(
    rt: HostRuntime,
    text: &[u8],
    weights: &mut [i32],
    starts: &mut [u32],
    sizes: &mut [u32],
    excesses: &mut [i64],
) {
    let answer = reader::read_sheet(text, weights, starts, sizes, excesses);
    match answer {
        Ok((head, store)) => asked(rt, head, store, weights, starts, sizes, excesses),
        Err(Unread::TooFew) => sheet_files::too_large(rt),
        Err(Unread::NotASheet(byte)) => sheet_files::refused(rt, text, byte),
    }
}

// The place that the third and the fourth argument name.
fn asked(
    rt: HostRuntime,
    head: Sizes,
    store: StoreLines,
    weights: &[i32],
    starts: &[u32],
    sizes: &[u32],
    excesses: &[i64],
) {
    let lists = Lists {
        weights,
        starts,
        sizes,
        excesses,
    };
    match figures::asked_place(rt) {
        Ok(place) => told::story(rt, head, store, place, lists),
        Err(NoNumber::Line) => frame_files::no_number(rt, "line", "LINE"),
        Err(NoNumber::Column) => frame_files::no_number(rt, "column", "COLUMN"),
    }
}
