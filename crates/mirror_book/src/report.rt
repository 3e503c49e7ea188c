// The report of a text of sheets, a number in each place.
ghost use Rattle.book.specs.Book.{BookOf};
ghost use Rattle.mirror_book.specs.Told.{reported};

use book::book;

// 0 where the whole text is sheets, end to end, else No. 13. The numbers are those of the sheets before the first bad one.
#[unsafe(no_mangle)]
pub extern "C" fn mirror_book(
    text: &[u8],
    sheets: &mut u64,
    windows: &mut u64,
    least: &mut i64,
    most: &mut i64,
    notflat: &mut u64,
    negative: &mut u64,
    byte: &mut u64,
) -> u32
    ensures answer { BookOf text.now (reported sheets.new windows.new least.new most.new notflat.new negative.new result byte.new) }
{
    let r = book(text);
    let smallest = r.least;
    let largest = r.most;
    *sheets = r.sheets;
    *windows = r.windows;
    *least = smallest;
    *most = largest;
    *notflat = r.notflat;
    *negative = r.negative;
    *byte = r.byte;
    r.stopped
}
