// A signed number that is known, with the byte that ends it.
ghost use Rattle.std.specs.Prelude.{◌≡◌, [], ◌∷◌, ◌++◌, ◌≤◌, length};
ghost use Rattle.text.specs.Text.{signed};
ghost use Rattle.scan.specs.Forms.{fixed};
ghost use Rattle.scan.specs.Answer.{Passes};

use crate::words::take_key;
use text::{put_byte, put_signed};

// The number and the byte at a place of the text: their one right text is written out and compared.
fn compared(v: i64, end: u8, text: &[u8], at: usize, right: &mut [u8]) -> Result<usize, usize>
    requires { (at ≤ length text.now) × (length right.old ≡ 24) }
    ensures answer { Passes (fixed (signed v ++ (end ∷ []))) text.now at result }
{
    let a: usize = 0;
    let b = put_signed(v, a, right);
    let e = put_byte(end, b, right);
    take_key(&right[a..e], text, at)
}

// The same, with room to write it out: 20 bytes and one at most.
pub fn take_known(v: i64, end: u8, text: &[u8], at: usize) -> Result<usize, usize>
    requires { at ≤ length text.now }
    ensures answer { Passes (fixed (signed v ++ (end ∷ []))) text.now at result }
{
    let mut right = [0u8; 24];
    compared(v, end, text, at, &mut right)
}
