// The words that a program was given, by their places; the first is the program's own name.
ghost use Rattle.std.specs.Prelude.{◌≤◌, length};

use std::env::FillError;
use std::rt::Env;

// Argument i, laid at the beginning of the list; no bytes where there is none or it is longer than the list. Where it matters why there is nothing, ask `rt.arg`.
pub fn argument<'a>(rt: HostRuntime, i: usize, buf: &'a mut [u8]) -> &'a [u8]
    ensures { length result.now ≤ length buf.old }
{
    let n = rt.arg(i, buf).unwrap_or(0);
    &buf[..n]
}

// Whether there is an argument i.
fn given(rt: HostRuntime, i: usize) -> bool {
    let mut room = [0u8; 1];
    !matches!(rt.arg(i, &mut room), Err(FillError::NotPresent))
}

// How many there are, the program's own name among them.
pub fn argument_count(rt: HostRuntime) -> usize {
    (0..usize::MAX)
        .find(|&i| !given(rt, i))
        .unwrap_or(usize::MAX)
}
