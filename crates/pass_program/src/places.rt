// A strip of columns in a file: the same columns of each row, by their places.
use crate::outgoing::NO_PLACES;
use crate::said::Ended;
use frame_files::bytes_in;
use std::fs::File;
use std::io;
use std::io::Write;
use std::os::unix::fs::FileExt;

// Columns of a file of rows: so many rows of so many samples, and of each the columns from `first` on, `count` of them.
#[derive(Clone, Copy)]
pub(crate) struct Strip {
    pub(crate) rows: u32,
    pub(crate) row: u32,
    pub(crate) first: u32,
    pub(crate) count: u32,
    pub(crate) wide: bool,
}

impl Strip {
    // The byte where the columns of row i begin; the last place of all, which no file has, where they are past the sizes of frames.
    fn place(self, i: u32) -> u64 {
        (i as u64)
            .saturating_mul(self.row as u64)
            .saturating_add(self.first as u64)
            .saturating_mul(bytes_in(1, self.wide))
    }
}

// One row's part, read.
fn read_row(file: &File, at: u64, part: &mut [u8]) -> Result<(), Ended> {
    let n = part.len();
    match file.read_at(part, at) {
        Ok(got) if got == n => Ok(()),
        Err(_) if n == 0 => Ok(()),
        _ => Err(Ended::Frame),
    }
}

// One row's part, written, where there is a file that it can be written to. A write to a file is short only where there is no more room.
fn write_row(to: &io::Result<File>, at: u64, part: &[u8]) -> Result<(), Ended> {
    let n = part.len();
    let file = match to {
        Ok(file) => file,
        Err(why) => return Err(Ended::Unwritten(*why)),
    };
    match file.write_at(part, at) {
        Ok(put) if put == n => Ok(()),
        Ok(_) => Err(Ended::Full),
        Err(_) if n == 0 => Ok(()),
        Err(why) => Err(Ended::Unwritten(why)),
    }
}

// The strip's bytes, row after row.
pub(crate) fn read(file: &File, s: Strip, bytes: &mut [u8]) -> Result<(), Ended> {
    let each = bytes_in(s.count, s.wide) as usize;
    let mut a: usize = 0;
    for i in 0..s.rows {
        if bytes.len() - a < each {
            return Err(Ended::Frame);
        }
        let e = a + each;
        read_row(file, s.place(i), &mut bytes[a..e])?;
        a = e;
    }
    Ok(())
}

// Writes them to the frame that goes out.
fn write(to: &io::Result<File>, s: Strip, bytes: &[u8]) -> Result<(), Ended> {
    let each = bytes_in(s.count, s.wide) as usize;
    let mut left = bytes;
    for i in 0..s.rows {
        let Some((part, rest)) = left.split_at_checked(each) else {
            return Err(Ended::Full);
        };
        write_row(to, s.place(i), part)?;
        left = rest;
    }
    Ok(())
}

// The strip's bytes, written by places, or one after the other where they can be.
pub(crate) fn put(
    rt: HostRuntime,
    to: &io::Result<File>,
    s: Strip,
    bytes: &[u8],
) -> Result<(), Ended> {
    in_order(rt, write(to, s, bytes), s, bytes)
}

// Where the output takes no places, as a pipe, and the strip is the whole frame: its bytes one after the other, which is the order that they have anyway.
fn in_order(rt: HostRuntime, put: Result<(), Ended>, s: Strip, bytes: &[u8]) -> Result<(), Ended> {
    let Err(Ended::Unwritten(why)) = put else {
        return put;
    };
    if s.count != s.row || why.raw_os_error() != Some(NO_PLACES) {
        return put;
    }
    rt.stdout().write_all(bytes).map_err(Ended::Unwritten)
}
