// The windows' lines.
ghost use Rattle.std.specs.Prelude.{◌≡◌, cond, suc, ◌+◌, ◌^◌, ◌≤◌, ◌<◌, eqb, length};
ghost use Rattle.scan.specs.Forms.{run};
ghost use Rattle.scan.specs.Answer.{Passes};
ghost use Rattle.sheet_scan.specs.Lines.{weight_item, open_line, window_line, window_lines};
ghost use Rattle.sheet_scan.specs.Answers.{ScansOpen};

use crate::WindowAt;
use scan::{take_field, take_number, take_signed};
use sheet::keys;

// The byte after weight j of `size`.
pub fn item_end(j: u32, size: u32) -> u8
    requires { j < size }
    ensures answer { result ≡ cond (eqb (suc j) size) 10 44 }
{
    if j + 1 == size {
        return b'\n';
    }
    b','
}

// The weights of a window of `size` lines, up to the newline.
pub fn scan_weights(limit: u64, size: u32, text: &[u8], at: usize) -> Result<usize, usize>
    requires { (1 ≤ limit) × (limit < 2 ^ 32) × (at ≤ length text.now) }
    ensures answer { Passes (run (weight_item limit size) 0 size) text.now at result }
{
    let mut p = at;
    for j in 0..size {
        let (_, next) = take_signed(limit, item_end(j, size), text, p)?;
        p = next;
    }
    Ok(p)
}

// The beginning of the line of window i, up to its colon: a window of 1 to `window` lines that ends within the camera's `lines`.
pub fn take_open(i: u32, lines: u32, window: u32, text: &[u8], at: usize) -> Result<WindowAt, usize>
    requires { (1 ≤ lines) × (1 ≤ window) × (at ≤ length text.now) }
    ensures answer { ScansOpen (open_line lines window i) text.now at result }
{
    let (_, p) = take_field(&keys::LINE, i as u64, i as u64, b'=', text, at)?;
    let (start, q) = take_number(0, lines as u64 - 1, b',', text, p)?;
    let most = (window as u64).min(lines as u64 - start);
    let (size, next) = take_number(1, most, b':', text, q)?;
    Ok(WindowAt {
        start: start as u32,
        size: size as u32,
        next,
    })
}

// The line of window i.
fn scan_window(
    i: u32,
    lines: u32,
    window: u32,
    limit: u64,
    text: &[u8],
    at: usize,
) -> Result<usize, usize>
    requires { (1 ≤ lines) × (1 ≤ window) × (1 ≤ limit) × (limit < 2 ^ 32) × (at ≤ length text.now) }
    ensures answer { Passes (window_line lines window limit i) text.now at result }
{
    let open = take_open(i, lines, window, text, at)?;
    scan_weights(limit, open.size, text, open.next)
}

// The lines of all windows.
pub(crate) fn scan_windows(
    lines: u32,
    outs: u32,
    window: u32,
    limit: u64,
    text: &[u8],
    at: usize,
) -> Result<usize, usize>
    requires { (1 ≤ lines) × (1 ≤ window) × (1 ≤ limit) × (limit < 2 ^ 32) × (at ≤ length text.now) }
    ensures answer { Passes (window_lines lines window limit outs) text.now at result }
{
    let mut p = at;
    for i in 0..outs {
        p = scan_window(i, lines, window, limit, text, p)?;
    }
    Ok(p)
}
