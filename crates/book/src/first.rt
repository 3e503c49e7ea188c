// One sheet of the text.
ghost use Rattle.std.specs.Prelude.{◌≡◌, [], ◌-◌, ◌≤◌, length};
ghost use Rattle.book_numbers.specs.Marks.{numbers_of};
ghost use Rattle.book.specs.Book.{SheetOf, FirstOf};

use crate::none::no_sheet;
use book_numbers::{Report, join};
use book_windows::count_windows;
use excess_scan::scan_excesses;
use sheet_scan::{limit_of, scan_rest, scan_sizes};

// The report of one sheet, from a place to its end, but for its windows.
fn one_sheet(at: usize, end: usize) -> Report
    requires { at ≤ end }
    ensures answer { result ≡ numbers_of 1 [] 0 (end - at) }
{
    Report {
        sheets: 1,
        windows: 0,
        least: 0,
        most: 0,
        notflat: 0,
        negative: 0,
        stopped: 0,
        byte: (end - at) as u64,
    }
}

// The report of the sheet at a place of the text, or the place where the text stops being like a sheet. Its windows are counted once the line of their excesses is right too, so
// those of a bad sheet never are.
fn scan_sheet(text: &[u8], at: usize) -> Result<Report, usize>
    requires { at ≤ length text.now }
    ensures answer { SheetOf text.now at result }
{
    let (v, a) = scan_sizes(text, at)?;
    let (store, mid, tail) = scan_rest(true, v, text, a)?;
    let limit = limit_of(store.bits);
    let end = scan_excesses(
        v.lines,
        v.windows,
        v.window_size,
        limit,
        store.precision,
        text,
        mid,
        tail,
    )?;
    let windows = count_windows(
        v.lines,
        v.windows,
        v.window_size,
        limit,
        store.precision,
        text,
        mid,
    );
    Ok(join(one_sheet(at, end), windows))
}

// The report of the sheet at a place of the text, or of none there.
pub(crate) fn first_sheet(text: &[u8], at: usize) -> Report
    requires { at ≤ length text.now }
    ensures answer { FirstOf text.now at result }
{
    match scan_sheet(text, at) {
        Ok(report) => report,
        Err(stop) => no_sheet(at, stop),
    }
}
