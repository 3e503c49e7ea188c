// The two streams: the answer, and the reason for a person.
ghost use Rattle.std.specs.Prelude.{◌≡◌, true};
ghost use Rattle.std.specs.Io.KnownBytes.{Appends};

use crate::arguments::argument;
use std::io::Write;

// Writes all of the bytes, or stops at the first write that takes nothing or fails; whether all were written.
pub fn written<W: Write>(to: &mut W, bytes: &[u8]) -> bool
    ensures { result ≡ true → Appends (W.contents to.old) (W.contents to.new) bytes.now }
{
    to.write_all(bytes).is_ok()
}

// A part of the answer, of bytes that need not be text.
pub fn out(rt: HostRuntime, text: &[u8]) {
    written(&mut rt.stdout(), text);
}

// A part of the reason.
pub fn err(rt: HostRuntime, text: &[u8]) {
    written(&mut rt.stderr(), text);
}

// The name of the file that argument i names, as it was given.
pub fn err_name(rt: HostRuntime, i: usize) {
    let mut name = [0u8; 4096];
    err(rt, argument(rt, i, &mut name));
}
