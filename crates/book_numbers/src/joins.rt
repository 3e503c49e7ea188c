// Two reports, one after the other.
ghost use Rattle.std.specs.Prelude.{◌≡◌};
ghost use Rattle.book_numbers.specs.Marks.{below, above};
ghost use Rattle.book_numbers.specs.Joins.{added, extreme_of, join_of};

use crate::Report;

// The sum, or the largest number where the sum is past it.
fn add(x: u64, y: u64) -> u64
    ensures answer { result ≡ added x y }
{
    if u64::MAX - x < y {
        return u64::MAX;
    }
    x + y
}

// The smaller of x and y, of which a part without windows has none.
fn least(n: u64, x: i64, m: u64, y: i64) -> i64
    ensures answer { result ≡ extreme_of below n x m y }
{
    if n == 0 {
        return y;
    }
    if m == 0 {
        return x;
    }
    if y < x {
        return y;
    }
    x
}

// The larger of the two.
fn most(n: u64, x: i64, m: u64, y: i64) -> i64
    ensures answer { result ≡ extreme_of above n x m y }
{
    if n == 0 {
        return y;
    }
    if m == 0 {
        return x;
    }
    if x < y {
        return y;
    }
    x
}

// The report of a text and of what comes after it, for any two reports. What stopped ends the book: nothing after it counts.
pub fn join(a: Report, b: Report) -> Report
    ensures answer { result ≡ join_of a b }
{
    if a.stopped != 0 {
        return a;
    }
    Report {
        sheets: add(a.sheets, b.sheets),
        windows: add(a.windows, b.windows),
        least: least(a.windows, a.least, b.windows, b.least),
        most: most(a.windows, a.most, b.windows, b.most),
        notflat: add(a.notflat, b.notflat),
        negative: add(a.negative, b.negative),
        stopped: b.stopped,
        byte: add(a.byte, b.byte),
    }
}
