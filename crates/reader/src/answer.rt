// The number of a text that was not read, and the byte beside the number of any text.
ghost use Rattle.std.specs.Prelude.{◌≡◌};
ghost use Rattle.reader.specs.Reading.{unread_number, byte_of};

use crate::Unread;
use refusal::{Numbered, Refusal};
use sheet_scan::{Sizes, StoreLines};

impl Numbered for Unread {
    ghost number_of = { unread_number };

    fn number(&self) -> u32 {
        match self {
            Unread::TooFew => Refusal::TooFewSlots.number(),
            Unread::NotASheet(_) => Refusal::NotASheet.number(),
        }
    }
}

// The byte of No. 13, else 0.
pub fn byte(reading: Result<(Sizes, StoreLines), Unread>) -> u64
    ensures answer { result ≡ byte_of reading }
{
    match reading {
        Err(Unread::NotASheet(byte)) => byte,
        _ => 0,
    }
}
