// Two files of as many samples, gone through from their beginnings.
ghost use Rattle.std.specs.Prelude.{◌+◌, ◌*◌, ◌≤◌, length};

use crate::found::Found;
use crate::said::Uncompared;
use frame_files::bytes_in;
use std::fs::File;
use std::io::{Seek, SeekFrom};

// Sample k of a part.
fn sample(part: &[u8], k: usize, wide: bool) -> u16
    requires { k * 2 + 2 ≤ length part.now }
{
    if wide {
        return u16::from_le_bytes([part[k * 2], part[k * 2 + 1]]);
    }
    part[k] as u16
}

// What n more samples add to what is found; they stand behind `from` others.
fn more(found: &mut Found, from: u64, n: usize, wide: bool, a: &[u8], b: &[u8])
    requires { (n * 2 ≤ length a.now) × (n * 2 ≤ length b.now) }
{
    for k in 0..n {
        let x = sample(a, k, wide);
        let y = sample(b, k, wide);
        if x != y {
            found.add(from.saturating_add(k as u64), x, y);
        }
    }
}

// The next bytes of a file fill the list; or it has fewer.
fn fill(file: &File, part: &mut [u8]) -> Result<(), Uncompared> {
    let mut from = file;
    let n = part.len();
    if program_streams::read_full(&mut from, part) < n {
        return Err(Uncompared::Frame);
    }
    Ok(())
}

// A file from its beginning; or it has no such place.
fn rewind(file: &File) -> Result<(), Uncompared> {
    let mut at = file;
    at.seek(SeekFrom::Start(0))?;
    Ok(())
}

// All of them, in parts of which the lists have room for two bytes a sample.
pub(crate) fn search(
    one: &File,
    two: &File,
    samples: u64,
    wide: bool,
    a: &mut [u8],
    b: &mut [u8],
) -> Result<Found, Uncompared> {
    rewind(one)?;
    rewind(two)?;
    let mut found = Found::NOTHING;
    let mut at: u64 = 0;
    // A `while`, since a turn goes on by a whole part, whose length both reads, the search and the next place need: a `for` over steps would work it out again.
    while at < samples {
        let n = (samples - at).min(32768) as u32;
        let e = bytes_in(n, wide) as usize;
        if a.len() / 2 < n as usize || b.len() / 2 < n as usize || a.len() < e || b.len() < e {
            return Err(Uncompared::Frame);
        }
        fill(one, &mut a[..e])?;
        fill(two, &mut b[..e])?;
        more(&mut found, at, n as usize, wide, a, b);
        at += n as u64;
    }
    Ok(found)
}
