// `sheet_text`: the parts of a sheet's text laid over a lent list at a place, for both stores: `put_head` its six head lines, `put_windows` the windows' lines,
// `put_excesses` the last line. What falls past the list's end is not written and counted all the same.
#![tactic(auto)]

mod lines;
mod parts;

pub use lines::{put_excesses, put_windows};
pub use parts::put_head;
