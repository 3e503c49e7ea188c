// `frame_files`: what the programs over frames share. `shape` has a raw frame in the file that an argument names: samples of 16 or of 8 bits, camera line after camera line, low byte first;
// `octets` its samples as bytes, `numbers` whole numbers among the arguments; `said` why there is no frame or no number. No contract says what is read or printed, since none could speak of the streams;
// every function is safe at every argument.
#![tactic(auto)]

mod numbers;
mod octets;
mod said;
mod shape;

pub use numbers::{times, whole_at};
pub use octets::{decode, encode};
pub use said::{no_frame, no_number};
pub use shape::{bytes_in, length, opened, row};
