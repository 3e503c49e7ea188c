// An argument in the two streams: the answer for a program, the reason for a person.
use program_streams::{argument, err, out};

// Argument i as it was given, nothing where it is missing or longer than 64 bytes.
pub(crate) fn out_argument(rt: HostRuntime, i: usize) {
    let mut room = [0u8; 64];
    out(rt, argument(rt, i, &mut room));
}

pub(crate) fn err_argument(rt: HostRuntime, i: usize) {
    let mut room = [0u8; 64];
    err(rt, argument(rt, i, &mut room));
}
