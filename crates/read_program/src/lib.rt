// The program `read_back`: the sheet of a file. `sheet_files` brings the text, `reader` judges it; `told` says in words what a sheet says. Standard output
// has the answer, standard error the reason for a person. No contract says what is read or printed, since none could speak of the streams; every function
// is safe at every argument.
#![tactic(auto)]

mod told;

use reader::Unread;

// Answers the program's one argument, a file's name. The text stands here, apart from what looks at it.
pub fn run(rt: HostRuntime) {
    let mut text = [0u8; 524288];
    answer(rt, sheet_files::room(&mut text));
}

// Reads the file, and what it has.
fn answer(rt: HostRuntime, room: &mut [u8]) {
    if let Some(text) = sheet_files::text(rt, room) {
        judge(rt, text);
    }
}

// The lists of `read`, and nothing else: one call. Every set that the builder makes has at most 57,344 slots and 8,192 windows.
fn judge(rt: HostRuntime, text: &[u8]) {
    let mut weights = [0i32; 131072];
    let mut starts = [0u32; 8192];
    let mut sizes = [0u32; 8192];
    let mut excesses = [0i64; 8192];
    read(
        rt,
        text,
        &mut weights,
        &mut starts,
        &mut sizes,
        &mut excesses,
    );
}

// The sheet, read and told. Written into `judge` (`inline`), so that the list of weights, at which nothing looks, need not be filled.
#[inline(always)]
fn read(
    rt: HostRuntime,
    text: &[u8],
    weights: &mut [i32],
    starts: &mut [u32],
    sizes: &mut [u32],
    excesses: &mut [i64],
) {
    let answer = reader::read_sheet(text, weights, starts, sizes, excesses);
    match answer {
        Ok((head, store)) => told::sheet(rt, head, store, starts, sizes, excesses),
        Err(Unread::TooFew) => sheet_files::too_large(rt),
        Err(Unread::NotASheet(byte)) => sheet_files::refused(rt, text, byte),
    }
}
