// A place of a text as an editor counts: lines and columns from 1.
ghost use Rattle.std.specs.Prelude.{◌≤◌, length};

// The line's number, where it begins, and the place itself.
#[derive(Clone, Copy)]
pub(crate) struct Place {
    pub(crate) line: usize,
    pub(crate) from: usize,
    pub(crate) at: usize,
}

// The place before byte `at`.
fn found(text: &[u8], at: usize) -> Place
    requires { at ≤ length text.now }
    ensures { (result.from ≤ result.at) × (result.at ≤ length text.now) }
{
    let before = &text[..at];
    let newlines = before.iter().filter(|&&b| b == b'\n').count();
    let from = match before.iter().rposition(|&b| b == b'\n') {
        Some(last) => last + 1,
        None => 0,
    };
    Place {
        line: newlines + 1,
        from,
        at,
    }
}

// The place before byte `byte`, the text's end where it has fewer.
pub(crate) fn of(text: &[u8], byte: u64) -> Place
    ensures { (result.from ≤ result.at) × (result.at ≤ length text.now) }
{
    let n = text.len();
    if n as u64 <= byte {
        return found(text, n);
    }
    found(text, byte as usize)
}

// The first newline from a place on, the text's end where there is none.
pub(crate) fn line_end(text: &[u8], at: usize) -> usize
    requires { at ≤ length text.now }
    ensures { (at ≤ result) × (result ≤ length text.now) }
{
    match text[at..].iter().position(|&b| b == b'\n') {
        Some(k) => at + k,
        None => text.len(),
    }
}
