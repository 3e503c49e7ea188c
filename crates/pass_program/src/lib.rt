// The programs `pass_frame` and `pass_frame_u8`: a pass with the sheet of one file over the raw frame of another, in strips of columns, each a frame of its own. `sheet_files` brings
// the sheet, `frame_files` the frame's shape; `columns` says which columns are asked for, `plan` how they go in strips, `places` reads a strip and writes what becomes of it, `outgoing` has the file that goes out. `samples` is what
// differs between the u16 and the u8 pass, `rooms` lays out the lists of each; `read_sets` and `strips` run either, and `said` tells how far it is, or why it ends. Standard output is the frame that goes out, written by places, so it has to be a file. No contract says what is read or
// written, since none could speak of the streams; every function is safe at every argument.
#![tactic(auto)]

mod columns;
mod outgoing;
mod places;
mod plan;
mod read_sets;
mod rooms;
mod said;
mod samples;
mod strips;

use std::fs::File;
use std::io;

// The u16 pass: SHEET FRAME, and perhaps FIRST COUNT.
pub fn run(rt: HostRuntime) {
    answer(rt, rooms::judge);
}

// The u8 pass, with the same words.
pub fn run_u8(rt: HostRuntime) {
    answer(rt, rooms::judge_u8);
}

// The sheet's text stands here, apart from what looks at it. The other lists are laid out where they are needed (`rooms`): what is refused before needs none.
fn answer<F: FnOnce(HostRuntime, &io::Result<File>, &[u8])>(rt: HostRuntime, judge: F)
    requires { F.IsAlwaysCallable judge }
{
    let mut text = [0u8; 524288];
    if columns::counted(rt) {
        with_text(
            rt,
            &outgoing::opened(rt),
            sheet_files::room(&mut text),
            judge,
        );
    }
}

// Reads the sheet's file, and goes on with what it has.
fn with_text<F: FnOnce(HostRuntime, &io::Result<File>, &[u8])>(
    rt: HostRuntime,
    to: &io::Result<File>,
    room: &mut [u8],
    judge: F,
)
    requires { F.IsAlwaysCallable judge }
{
    if let Some(text) = sheet_files::text_of(rt, 1, room) {
        judge(rt, to, text);
    }
}
