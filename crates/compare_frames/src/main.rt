// The program `compare_frames`: whether two raw frames have the same samples, of 16 bits, or of 8 where a fourth word is given; A B ROW. `search` goes through both files, `found` is what it finds, `said` has the answer.
// No contract says what is read or printed, since none could speak of the streams; every function is safe at every argument.
#![tactic(auto)]

mod found;
mod said;
mod search;

use frame_files::bytes_in;
use said::{Compared, Uncompared};

// The two parts that are compared stand here, apart from what looks at them.
fn main(rt: HostRuntime) {
    let mut a = [0u8; 65536];
    let mut b = [0u8; 65536];
    match compared(rt, &mut a, &mut b) {
        Ok(answer) => {
            let _ = println!(rt; "{answer}");
        }
        Err(Uncompared::Row) => frame_files::no_number(rt, "row", "ROW"),
        Err(why) => {
            let _ = println!(rt; "{why}");
        }
    }
}

// The row length, the two files and their lengths; whole rows are compared.
fn compared(rt: HostRuntime, a: &mut [u8], b: &mut [u8]) -> Result<Compared, Uncompared> {
    let words = program_streams::argument_count(rt);
    if words < 4 {
        return Err(Uncompared::Words);
    }
    let wide = words < 5;
    let row = frame_files::whole_at(rt, 3).ok_or(Uncompared::Row)?;
    let one = program_streams::opened(rt, 1)?;
    let bytes = frame_files::length(&one)?;
    let two = program_streams::opened(rt, 2)?;
    let others = frame_files::length(&two)?;
    if bytes != others {
        return Err(Uncompared::Lengths(bytes, others));
    }
    if row == 0 || bytes.checked_rem(bytes_in(row, wide)) != Some(0) {
        return Err(Uncompared::Rows(bytes, row));
    }
    let samples = samples_in(bytes, wide);
    let found = search::search(&one, &two, samples, wide, a, b)?;
    let row = row as u64;
    Ok(match found.first {
        None => Compared::Equal(samples),
        Some(first) => Compared::Differ {
            count: found.count,
            samples,
            line: first.at / row,
            column: first.at % row,
            a: first.a,
            b: first.b,
        },
    })
}

// How many samples so many bytes are.
fn samples_in(bytes: u64, wide: bool) -> u64 {
    if wide { bytes / 2 } else { bytes }
}
