// The program `release_book`: the report of all files that its arguments name, one after the other. `sheet_files` brings a text, `book` reads it, `join` adds its report to that
// of the files before. Standard output has the report, standard error the first bad sheet's file, byte and line, where there is one; the files after that are not read.
// No contract says what is read or printed, since none could speak of the streams; every function is safe at every argument.
#![tactic(auto)]

mod told;

use book_numbers::{EMPTY, Report, join};

// Answers the program's arguments, a name of a file each. The text stands here, apart from what looks at it.
pub fn run(rt: HostRuntime) {
    let mut text = [0u8; 524288];
    let count = program_streams::argument_count(rt);
    if count < 2 {
        return sheet_files::missing(rt);
    }
    all(rt, count, sheet_files::room(&mut text));
}

// The report of the files from argument 1 on, up to the first bad sheet.
fn all(rt: HostRuntime, count: usize, room: &mut [u8]) {
    let mut r = EMPTY;
    for i in 1..count {
        let Some(next) = one(rt, i, room) else {
            return;
        };
        r = join(r, next);
        if next.stopped != 0 {
            break;
        }
    }
    told::report(rt, r);
}

// The report of the file that argument i names; where it was not read, why has been said.
fn one(rt: HostRuntime, i: usize, room: &mut [u8]) -> Option<Report> {
    let text = sheet_files::text_of(rt, i, room)?;
    Some(judged(rt, i, text))
}

// The report of its text. Of a bad sheet the place is said at once, while the text is there.
fn judged(rt: HostRuntime, i: usize, text: &[u8]) -> Report {
    let r = book::book(text);
    if r.stopped != 0 {
        sheet_files::stopped(rt, i, text, r.byte);
    }
    r
}
