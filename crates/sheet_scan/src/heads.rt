// The head lines of a sheet: the first four, whose numbers say what must be lent, and the two after them.
ghost use Rattle.std.specs.Prelude.{◌≡◌, ◌≤◌, length};
ghost use Rattle.windows.specs.Store.{largest_precision};
ghost use Rattle.scan.specs.Answer.{Scans};
ghost use Rattle.sheet_scan.specs.Language.{store_named_value};
ghost use Rattle.sheet_scan.specs.Lines.{size_lines, store_line, store_lines, bits_line};

use crate::names::take_kind;
use crate::{Sizes, StoreLines};
use scan::{take_field, take_key};
use sheet::keys;
use text::shared;
use windows::{STORE16, STORE32, Store};

// The kind line and the three size lines.
pub fn scan_sizes(text: &[u8], at: usize) -> Result<(Sizes, usize), usize>
    requires { at ≤ length text.now }
    ensures answer { Scans size_lines text.now at result }
{
    let (kind, a) = take_kind(text, at)?;
    let (lines, b) = take_field(&keys::IN, 1, 8192, b'\n', text, a)?;
    let (outs, c) = take_field(&keys::OUT, 1, 8192, b'\n', text, b)?;
    let (window, next) = take_field(&keys::WINDOW, 1, 32769, b'\n', text, c)?;
    let sizes = Sizes {
        kind,
        lines: lines as u32,
        windows: outs as u32,
        window_size: window as u32,
    };
    Ok((sizes, next))
}

// The bits of the store and a newline: 16, or 32 where it is taken.
fn take_bits(wide: bool, text: &[u8], at: usize) -> Result<(u64, usize), usize>
    requires { at ≤ length text.now }
    ensures answer { Scans (bits_line wide) text.now at result }
{
    let a = shared(b"16\n", text, at);
    if a == 3 {
        return Ok((16, at + a));
    }
    if !wide {
        return Err(at + a);
    }
    let b = shared(b"32\n", text, at);
    if b == 3 {
        return Ok((32, at + b));
    }
    Err(at + a.max(b))
}

// The store's line.
fn take_store(wide: bool, text: &[u8], at: usize) -> Result<(u64, usize), usize>
    requires { at ≤ length text.now }
    ensures answer { Scans (store_line wide) text.now at result }
{
    let next = take_key(&keys::STORE, text, at)?;
    take_bits(wide, text, next)
}

// The store whose weights have so many bits, 16 or 32.
fn store_named(bits: u64) -> Store
    ensures answer { result ≡ store_named_value bits }
{
    if bits == 16 {
        return STORE16;
    }
    STORE32
}

// The largest precision of a store.
fn most_of(bits: u64) -> u64
    ensures answer { result ≡ largest_precision (store_named_value bits) }
{
    let store = store_named(bits);
    (store.bits - 1) as u64
}

// The store's line and the precision's.
pub(crate) fn scan_store(wide: bool, text: &[u8], at: usize) -> Result<(StoreLines, usize), usize>
    requires { at ≤ length text.now }
    ensures answer { Scans (store_lines wide) text.now at result }
{
    let (bits, a) = take_store(wide, text, at)?;
    let (precision, next) = take_field(&keys::PRECISION, 4, most_of(bits), b'\n', text, a)?;
    let lines = StoreLines {
        bits: bits as u32,
        precision: precision as u32,
    };
    Ok((lines, next))
}
