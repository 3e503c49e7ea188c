// A frame's file: the file itself, its length, and the row length that it has for so many camera lines.
ghost use Rattle.std.specs.Prelude.{◌≤◌};

use crate::said;
use std::fs::File;
use std::io;
use std::io::{Seek, SeekFrom};

// The file that argument i names, where it can be opened.
pub fn opened(rt: HostRuntime, i: usize) -> Option<File> {
    program_streams::opened(rt, i).ok()
}

// The length of an opened file; or it cannot be read by places.
pub fn length(file: &File) -> io::Result<u64> {
    let mut at = file;
    at.seek(SeekFrom::End(0))
}

// The bytes of so many samples, two each where they are wide.
pub fn bytes_in(samples: u32, wide: bool) -> u64
    ensures { result ≤ 0x1_ffff_fffe }
{
    if wide {
        return samples as u64 * 2;
    }
    samples as u64
}

// The row length of a file of so many bytes for so many lines, if it is a frame of such lines.
fn row_of(bytes: u64, lines: u32, wide: bool) -> Option<u64> {
    let each = bytes_in(lines, wide);
    if bytes == 0 || each == 0 || bytes % each != 0 {
        return None;
    }
    Some(bytes / each)
}

// The row length of an opened frame of so many lines; where there is none, why has been said.
pub fn row(rt: HostRuntime, file: &File, lines: u32, wide: bool) -> Option<u32> {
    let Ok(bytes) = length(file) else {
        said::no_frame(rt);
        return None;
    };
    let Some(row) = row_of(bytes, lines, wide) else {
        said::misfit(rt, bytes, lines, wide);
        return None;
    };
    if 32768 < row {
        said::long_rows(rt, row);
        return None;
    }
    Some(row as u32)
}
