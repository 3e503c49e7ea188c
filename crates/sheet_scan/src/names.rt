// The filter's line.
ghost use Rattle.std.specs.Prelude.{◌≡◌, ◌++◌, ◌≤◌, length, drop};
ghost use Rattle.text.specs.Words.{common};
ghost use Rattle.sheet.specs.Keys.{newline};
ghost use Rattle.sheet_scan.specs.Lines.{name_line, kind_line};
ghost use Rattle.scan.specs.Answer.{Scans};

use filters::FilterType;
use scan::take_key;
use sheet::keys;
use text::shared;

// How many bytes a name with a newline behind it and the text from a place on begin with in common.
fn shared_line(name: &[u8], text: &[u8], at: usize) -> usize
    requires { at ≤ length text.now }
    ensures answer { result ≡ common (drop at text.now) (name.now ++ newline) }
{
    let n = shared(name, text, at);
    if n < name.len() {
        return n;
    }
    let end = at + n;
    if text.len() <= end {
        return n;
    }
    if text[end] == keys::NEWLINE {
        return n + 1;
    }
    n
}

// The filter's name and a newline. No name begins another, so at most one is there.
fn take_name(text: &[u8], at: usize) -> Result<(FilterType, usize), usize>
    requires { at ≤ length text.now }
    ensures answer { Scans name_line text.now at result }
{
    let a = shared_line(&keys::BOX, text, at);
    if a == 4 {
        return Ok((FilterType::Box, at + a));
    }
    let b = shared_line(&keys::BILINEAR, text, at);
    if b == 9 {
        return Ok((FilterType::Bilinear, at + b));
    }
    let c = shared_line(&keys::CATMULL_ROM, text, at);
    if c == 11 {
        return Ok((FilterType::CatmullRom, at + c));
    }
    let d = shared_line(&keys::MITCHELL, text, at);
    if d == 9 {
        return Ok((FilterType::Mitchell, at + d));
    }
    Err(at + a.max(b).max(c.max(d)))
}

// The whole line.
pub(crate) fn take_kind(text: &[u8], at: usize) -> Result<(FilterType, usize), usize>
    requires { at ≤ length text.now }
    ensures answer { Scans kind_line text.now at result }
{
    let next = take_key(&keys::KIND, text, at)?;
    take_name(text, next)
}
