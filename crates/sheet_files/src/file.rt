// The bytes of the file that an argument names.
ghost use Rattle.std.specs.Prelude.{◌≤◌, length, IfOk};

use std::fs::File;
use std::io;
use std::io::Read;

// Why a file gives no text: it could not be opened or read, or it goes on where the room ends.
#[derive(Clone, Copy)]
pub(crate) enum NoText {
    Unreadable,
    Long,
}

impl From<io::Error> for NoText {
    fn from(_error: io::Error) -> NoText {
        NoText::Unreadable
    }
}

// Reads to the file's end, or until the list is full; how many bytes there were.
fn fill(file: &mut File, buf: &mut [u8]) -> io::Result<usize>
    ensures { IfOk result (λ n. n ≤ length buf.old) }
{
    let mut n: usize = 0;
    // A `while`: each turn goes on by as many bytes as its read brought, and a `for` knows no such step.
    while n < buf.len() {
        match file.read(&mut buf[n..])? {
            0 => return Ok(n),
            more => n += more,
        }
    }
    Ok(n)
}

// Whether the file goes on.
fn goes_on(file: &mut File) -> bool {
    let mut more = [0u8; 1];
    file.read(&mut more).is_ok_and(|n| 0 < n)
}

// The bytes of the file that argument i names, in the beginning of the list. It is closed again, so that a program may read any number of files.
pub(crate) fn read<'a>(rt: HostRuntime, i: usize, buf: &'a mut [u8]) -> Result<&'a [u8], NoText>
    ensures { IfOk result (λ text. length text.now ≤ length buf.old) }
{
    let mut file = program_streams::opened(rt, i)?;
    let n = fill(&mut file, buf)?;
    if goes_on(&mut file) {
        return Err(NoText::Long);
    }
    Ok(&buf[..n])
}
