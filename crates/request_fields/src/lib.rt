// The fields of a request (docs/PROTOCOL.md): the `Words` of a line, read one after the other. Each reading gives what the word says, or the `Fault` that the line
// has there. No contract says what is read: none could speak of a text in general terms that is shorter than the code. Every function is safe at every
// argument.
#![tactic(auto)]

mod element;
mod elements;
mod fault;
mod numbers;
mod patterns;
mod words;

pub use element::Element;
pub use fault::{Fault, Kind, Reason};
pub use words::Words;
