// The two streams: the answer, and the reason for a person.
pub use program_streams::{err, err_name, out};
