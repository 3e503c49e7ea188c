// The requests `read TEXT NSLOTS NSTARTS NSIZES NEXCESSES`, a sheet of either store, and `read16` with the same fields, one of the 16-bit store, answered by
// `reader`. `head` shows what stands before the lists.
#![tactic(auto)]

mod head;

use answer_lines::{Output, Show};
use reader::Unread;
use request_fields::{Element, Fault, Words};
use sheet_scan::{Sizes, StoreLines};

// Whether the line is one of these requests, which is answered then.
pub fn answer(line: &[u8], out: &mut Output<'_>) -> Result<bool, Fault> {
    let mut words = Words::new(line);
    match words.word()? {
        b"read" => read(words, &mut [0i32; 131072], out),
        b"read16" => read(words, &mut [0i16; 131072], out),
        _ => Ok(false),
    }
}

// The weights that a sheet is read into.
trait Weight: Element + Show {
    // Their reader of sheets.
    fn read_sheet(
        text: &[u8],
        weights: &mut [Self],
        starts: &mut [u32],
        sizes: &mut [u32],
        excesses: &mut [i64],
    ) -> Result<(Sizes, StoreLines), Unread>;
}

impl Weight for i32 {
    fn read_sheet(
        text: &[u8],
        weights: &mut [i32],
        starts: &mut [u32],
        sizes: &mut [u32],
        excesses: &mut [i64],
    ) -> Result<(Sizes, StoreLines), Unread> {
        reader::read_sheet(text, weights, starts, sizes, excesses)
    }
}

impl Weight for i16 {
    fn read_sheet(
        text: &[u8],
        weights: &mut [i16],
        starts: &mut [u32],
        sizes: &mut [u32],
        excesses: &mut [i64],
    ) -> Result<(Sizes, StoreLines), Unread> {
        reader::read_sheet16(text, weights, starts, sizes, excesses)
    }
}

// What the head lines say, and the four lists.
fn read<W: Weight>(
    mut words: Words<'_>,
    weights: &mut [W],
    out: &mut Output<'_>,
) -> Result<bool, Fault> {
    let mut text = [0u8; 131072];
    let mut starts = [0u32; 131072];
    let mut sizes = [0u32; 131072];
    let mut excesses = [0i64; 131072];
    let text = words.text(&mut text)?;
    let weights = words.lent(weights)?;
    let starts = words.lent(&mut starts)?;
    let sizes = words.lent(&mut sizes)?;
    let excesses = words.lent(&mut excesses)?;
    words.end()?;
    head::show(W::read_sheet(text, weights, starts, sizes, excesses), out);
    out.byte(b' ');
    out.list(weights);
    out.byte(b' ');
    out.list(starts);
    out.byte(b' ');
    out.list(sizes);
    out.byte(b' ');
    out.list(excesses);
    Ok(true)
}
