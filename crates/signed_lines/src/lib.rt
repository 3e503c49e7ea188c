// `signed_lines`: lines of a key and a number with its sign, laid into a lent list as `text` lays its own.
#![tactic(auto)]

ghost use Rattle.std.specs.Prelude.{◌≡◌, length};
ghost use Rattle.text.specs.Text.{laid, reached};
ghost use Rattle.signed_lines.specs.Lines.{number_text};

use text::{put, put_byte, put_signed};

// A key, a number with its sign and a newline; the place after it.
pub fn put_signed_line(key: &[u8], v: i64, at: usize, out: &mut [u8]) -> usize
    ensures answer { result ≡ reached at (length (number_text key.now v)) }
    ensures written { out.new ≡ laid out.old at (number_text key.now v) }
{
    let a = put(key, at, out);
    let b = put_signed(v, a, out);
    put_byte(b'\n', b, out)
}
