// `program_streams`: what a program has from outside and gives back: the words that it was given, the file that a word names, and its two streams, standard
// output for the answer and standard error for the reason for a person. No contract says what is read or printed, since none could speak of the
// streams; every function is safe at every argument.
#![tactic(auto)]

mod arguments;
mod failure;
mod figures;
mod files;
mod rooms;
mod writing;

pub use arguments::{argument, argument_count};
pub use failure::failed;
pub use figures::{decimal, hex};
pub use files::{opened, read_full};
pub use rooms::room;
pub use writing::{err, err_name, out, written};
