// One column of the frame that argument 2 names: raw little-endian samples of 16 bits, camera line after camera line. Only the column's bytes are read.
use std::fs::File;
use std::io;
use std::io::{Error, ErrorKind, Seek, SeekFrom};

// The next sample.
fn next_sample(file: &File) -> io::Result<u16> {
    let mut from = file;
    let mut two = [0u8; 2];
    if program_streams::read_full(&mut from, &mut two) < 2 {
        return Err(Error::from(ErrorKind::UnexpectedEof));
    }
    Ok(u16::from_le_bytes(two))
}

// Moves on by so many samples, two bytes each.
fn skip(file: &File, samples: i64) -> io::Result<()> {
    let mut at = file;
    at.seek(SeekFrom::Current(samples))?;
    at.seek(SeekFrom::Current(samples))?;
    Ok(())
}

// A column of a frame with such rows, as many lines as the list has places.
pub(crate) fn column(file: &File, row: u32, at: u32, samples: &mut [u16]) -> io::Result<()> {
    let mut first = file;
    first.seek(SeekFrom::Start(0))?;
    skip(file, at as i64)?;
    for sample in samples {
        *sample = next_sample(file)?;
        skip(file, row as i64 - 1)?;
    }
    Ok(())
}
