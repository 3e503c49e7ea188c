// `sheet_files`: a sheet's text in the file that a program's one argument names, or one of several, for the programs that take such a file. `file` brings the bytes, `place` and
// `marked` say where a text that is no sheet stops being one, `unread` why no text was judged; `streams` are the answer and the reason for a person. No
// contract says what is read or printed, since none could speak of the streams; every function is safe at every argument.
#![tactic(auto)]

mod file;
mod marked;
mod place;
pub mod streams;
mod unread;

ghost use Rattle.std.specs.Prelude.{◌≤◌, length, IfSome};

pub use marked::{refused, stopped};
pub use program_streams::room;
pub use unread::{missing, too_large};

// The bytes of the file that argument i names, whatever others there are, in the beginning of the list; where there are none, why has been said.
pub fn text_of<'a>(rt: HostRuntime, i: usize, buf: &'a mut [u8]) -> Option<&'a [u8]>
    ensures { IfSome result (λ text. length text.now ≤ length buf.old) }
{
    match file::read(rt, i, buf) {
        Ok(text) => Some(text),
        Err(why) => {
            unread::told(rt, i, why);
            None
        }
    }
}

// The same where that is the only argument.
pub fn text<'a>(rt: HostRuntime, buf: &'a mut [u8]) -> Option<&'a [u8]>
    ensures { IfSome result (λ text. length text.now ≤ length buf.old) }
{
    match program_streams::argument_count(rt) {
        0 | 1 => unread::missing(rt),
        2 => return text_of(rt, 1, buf),
        _ => unread::too_many(rt),
    }
    None
}
