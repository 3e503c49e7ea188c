// The frame that goes out: the file that standard output is, opened once more, since std writes by places to a file alone.
ghost use Rattle.std.specs.Prelude.{◌≤◌, length};

use std::fs::File;
use std::io::{Error, Write};
use std::os::unix::fs::FileTypeExt;
use std::{fs, io};

// Where the system names the file, and what it says of how it was opened.
const FILE: &str = "/proc/self/fd/1";

const STATE: &str = "/proc/self/fdinfo/1";

// What the system says of a write by places to a pipe or a socket.
pub(crate) const NO_PLACES: i32 = 29;

// Where the line with the place a in it ends; the text's end where no line ends behind it.
fn line_end(text: &[u8], a: usize) -> usize
    ensures { result ≤ length text.now }
{
    let behind = match text.get(a..) {
        Some(rest) => rest.iter().position(|&b| b == b'\n'),
        None => None,
    };
    match behind {
        Some(k) => a + k,
        None => text.len(),
    }
}

// Whether the state's second line, a number in octal, has the bit of a file to whose end is written: the second bit of the fourth digit from the right.
fn behind(text: &[u8]) -> bool {
    let first = line_end(text, 0);
    if text.len() <= first {
        return false;
    }
    let e = line_end(text, first + 1);
    if e < 4 {
        return false;
    }
    matches!(text[e - 4], b'2' | b'3' | b'6' | b'7')
}

// Whether it was opened so that each write goes behind all that is there, as a shell's `>>` does.
fn appends(rt: HostRuntime) -> bool {
    let mut text = [0u8; 256];
    let Ok(mut file) = File::open(&rt, STATE) else {
        return false;
    };
    let n = program_streams::read_full(&mut file, &mut text);
    behind(&text[..n])
}

// The file, or why nothing can be written to it by places. It is asked for before any other file is opened: one of them could take the place of a standard
// output that is closed. No byte is written here: the first line only asks whether standard output is open to be written.
pub(crate) fn opened(rt: HostRuntime) -> io::Result<File> {
    Write::write(&mut rt.stdout(), &[])?;
    let kind = fs::metadata(&rt, FILE)?.file_type();
    if kind.is_fifo() | kind.is_socket() {
        return Err(Error::from_raw_os_error(NO_PLACES));
    }
    if appends(rt) {
        return File::options().append(true).open(&rt, FILE);
    }
    File::options().write(true).open(&rt, FILE)
}
