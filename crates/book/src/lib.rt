// `book`: the numbers of a release book, over one lent text of sheets, end to end. It walks with the readers' scanners; no set is kept and no slots are lent. The first bad
// sheet stops the run, and the report is for the sheets before it. A count is at most the text's length, since every sheet and every window has bytes of its own.
#![tactic(auto)]

mod first;
mod none;

ghost use Rattle.std.specs.Prelude.{◌≡◌};
ghost use Rattle.book.specs.Book.{BookOf};

use book_numbers::{EMPTY, Report, join};
use first::first_sheet;

// The report of a text, for any text.
pub fn book(text: &[u8]) -> Report
    ensures answer { BookOf text.now result }
{
    let mut r = EMPTY;
    let mut at: usize = 0;
    // No range or iterator has these places: each step is as long as the sheet that was read there.
    while at < text.len() {
        let one = first_sheet(text, at);
        r = join(r, one);
        if one.stopped != 0 {
            return r;
        }
        at += one.byte as usize;
    }
    r
}
