// Fixed words.
ghost use Rattle.std.specs.Prelude.{◌≡◌, ◌≤◌, length};
ghost use Rattle.scan.specs.Forms.{fixed};
ghost use Rattle.scan.specs.Answer.{Passes};

use text::shared;

// The word at a place of the text.
pub fn take_key(key: &[u8], text: &[u8], at: usize) -> Result<usize, usize>
    requires { at ≤ length text.now }
    ensures answer { Passes (fixed key.now) text.now at result }
{
    let n = shared(key, text, at);
    if n < key.len() {
        return Err(at + n);
    }
    Ok(at + n)
}
