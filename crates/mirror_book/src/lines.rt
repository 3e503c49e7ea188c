// A report's lines, into `out`; how many bytes they have, in `written`.
ghost use Rattle.std.specs.Prelude.{◌≡◌, length};
ghost use Rattle.sheet.specs.Answer.{number_of, length_of};
ghost use Rattle.book_text.specs.Text.{answer_of, written_of};
ghost use Rattle.mirror_book.specs.Told.{reported};

use book_numbers::Report;
use book_text::write_report;
use refusal::Numbered;

// 0 or No. 11, of any numbers. The byte is no line.
#[unsafe(no_mangle)]
pub extern "C" fn mirror_book_lines(
    sheets: u64,
    windows: u64,
    least: i64,
    most: i64,
    notflat: u64,
    negative: u64,
    stopped: u32,
    out: &mut [u8],
    written: &mut u64,
) -> u32
    ensures answer { result ≡ number_of (answer_of (reported sheets windows least most notflat negative stopped 0) (length out.old)) }
    ensures written { out.new ≡ written_of (reported sheets windows least most notflat negative stopped 0) out.old }
    ensures written2 { written.new ≡ length_of (answer_of (reported sheets windows least most notflat negative stopped 0) (length out.old)) }
{
    let r = Report {
        sheets: sheets,
        windows: windows,
        least: least,
        most: most,
        notflat: notflat,
        negative: negative,
        stopped: stopped,
        byte: 0,
    };
    match write_report(r, out) {
        Ok(length) => {
            *written = length;
            0
        }
        Err(refusal) => {
            *written = 0;
            refusal.number()
        }
    }
}
