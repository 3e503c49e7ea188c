// The file that an argument names, and a list filled from a reader.
ghost use Rattle.std.specs.Prelude.{◌≤◌, length};

use crate::arguments::argument;
use std::fs::File;
use std::io::{ErrorKind, Read};
use std::{io, str};

// The file that argument i names, opened to be read. A name that is no text in UTF-8 names none.
pub fn opened(rt: HostRuntime, i: usize) -> io::Result<File> {
    let mut name = [0u8; 4096];
    let bytes = argument(rt, i, &mut name);
    let path = str::from_utf8(bytes).map_err(|_| io::Error::from(ErrorKind::InvalidFilename))?;
    File::open(&rt, path)
}

// Reads until the list is full, the file ends or a read fails; how many bytes there were.
pub fn read_full<R: Read>(from: &mut R, buf: &mut [u8]) -> usize
    ensures { result ≤ length buf.old }
{
    let mut n: usize = 0;
    // A `while`: each turn goes on by as many bytes as its read brought, and a `for` knows no such step.
    while n < buf.len() {
        match from.read(&mut buf[n..]) {
            Ok(0) | Err(_) => return n,
            Ok(more) => n += more,
        }
    }
    n
}
