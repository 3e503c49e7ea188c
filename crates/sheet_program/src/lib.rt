// The program `print_sheet`: `words` reads what is asked, `making` builds the set, `stores` writes and prints its sheet; `unread`, `refused` and
// `limits` answer where there is none. Standard output has the sheet, or one line that says why there is none; standard error has the reason in
// words. No contract says what is read or printed, since none could speak of the streams; every function is safe at every argument.
#![tactic(auto)]

mod arguments;
mod limits;
mod making;
mod refused;
mod stores;
mod streams;
mod unread;
mod words;

use filters::FilterType;

// What is asked: a set of weights down one axis, and the store of its sheet.
#[derive(Clone, Copy)]
pub(crate) struct Asked {
    pub(crate) filter: FilterType,
    pub(crate) side: u32,
    pub(crate) near: f64,
    pub(crate) extent: f64,
    pub(crate) output: u32,
    pub(crate) adapts: bool,
    pub(crate) narrow: bool,
}

// Document 01's example: side 4, crop 0 to 4, output 2, Box, adapting, 32-bit.
fn example() -> Asked {
    Asked {
        filter: FilterType::Box,
        side: 4,
        near: 0.0,
        extent: 4.0,
        output: 2,
        adapts: true,
        narrow: false,
    }
}

// Answers the program's arguments; without any, prints the example.
pub fn run(rt: HostRuntime) {
    if program_streams::argument_count(rt) < 2 {
        making::print(rt, example());
        return;
    }
    words::answer(rt);
}
