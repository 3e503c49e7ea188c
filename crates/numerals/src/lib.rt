// `numerals`: whole numbers read from digits, in any base up to 16. Readers take a part of a text by its place; a byte past the end is none. No function
// asks anything. Numbers are written by `text`.
#![tactic(auto)]

mod digits;

pub use digits::{all_digits, digit, figure, read_number};

// Why no number was read: it is above the largest one wished, or the bytes are no digits.
#[derive(Clone, Copy, PartialEq, Eq)]
pub enum NumberError {
    TooLarge,
    Malformed,
}
