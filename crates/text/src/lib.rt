// `text`: bytes, numbers and words in lists of bytes. Writers lay a text into a lent list from a place on (`laid`) and give the place after it
// (`reached`): what falls past the list's end is not written and is counted all the same, so one run over a short list gives a text's length.
// `shared` says how much of a word stands at a place. No function asks anything. Numbers are read by `numerals`.
#![tactic(auto)]

mod bytes;
mod decimal;
mod words;

pub use bytes::{put, put_byte};
pub use decimal::{put_field, put_line, put_number, put_signed};
pub use words::shared;
