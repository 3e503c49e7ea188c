// `scan`: pieces of text looked for at a place of a lent text. A scanner answers `Ok` with the place after the piece, and with the value where the piece writes one, or
// `Err` with the place where the text stops being like such a piece. Nothing is kept of the text.
// The functions are workers of the readers of sheets: the caller shows that the place is inside the text and that the range has a number.
#![tactic(auto)]

mod digits;
mod fields;
mod known;
mod signs;
mod words;

pub use digits::take_number;
pub use fields::take_field;
pub use known::take_known;
pub use signs::take_signed;
pub use words::take_key;
