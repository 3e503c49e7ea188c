// Bytes `laid` into a lent list from a place on.
ghost use Rattle.std.specs.Prelude.{◌≡◌, length, set};
ghost use Rattle.text.specs.Text.{laid, reached};

// The place after a place, but for the last of all.
pub(crate) fn next(at: usize) -> usize
    ensures answer { result ≡ reached at 1 }
{
    if at < usize::MAX {
        return at + 1;
    }
    at
}

// One byte; the next place.
pub fn put_byte(b: u8, at: usize, out: &mut [u8]) -> usize
    ensures answer { result ≡ reached at 1 }
    ensures written { out.new ≡ set out.old at b }
{
    if out.len() <= at {
        return next(at);
    }
    out[at] = b;
    at + 1
}

// A byte string; the place after it.
pub fn put(s: &[u8], at: usize, out: &mut [u8]) -> usize
    ensures answer { result ≡ reached at (length s.now) }
    ensures written { out.new ≡ laid out.old at s.now }
{
    let mut p = at;
    for b in s {
        p = put_byte(*b, p, out);
    }
    p
}
