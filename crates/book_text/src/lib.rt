// `book_text`: the report of a release book as seven key=value lines. `write_report` lays `report_text` over the beginning of a lent list, or answers No. 11. The text's
// length comes from the same run over a list of one byte, since what falls past a list's end is not written and counted all the same.
#![tactic(auto)]

mod keys;

ghost use Rattle.std.specs.Prelude.{◌≡◌, length};
ghost use Rattle.text.specs.Text.{laid, reached};
ghost use Rattle.book_text.specs.Text.{sheets_text, report_text, answer_of, written_of};

use book_numbers::Report;
use refusal::Refusal;
use signed_lines::put_signed_line;
use text::put_line;

// The first four lines, from the list's beginning on; the place after them.
fn put_sheets(r: Report, out: &mut [u8]) -> usize
    ensures answer { result ≡ reached 0 (length (sheets_text r)) }
    ensures written { out.new ≡ laid out.old 0 (sheets_text r) }
{
    let a = put_line(&keys::SHEETS, r.sheets, 0, out);
    let b = put_line(&keys::WINDOWS, r.windows, a, out);
    let c = put_signed_line(&keys::LEAST, r.least, b, out);
    put_signed_line(&keys::MOST, r.most, c, out)
}

// All seven.
fn put_report(r: Report, out: &mut [u8]) -> usize
    ensures answer { result ≡ reached 0 (length (report_text r)) }
    ensures written { out.new ≡ laid out.old 0 (report_text r) }
{
    let a = put_sheets(r, out);
    let b = put_line(&keys::NOT_FLAT, r.notflat, a, out);
    let c = put_line(&keys::NEGATIVE, r.negative, b, out);
    put_line(&keys::STOPPED, r.stopped as u64, c, out)
}

// The text of any report, in `out`; where the room is too small No. 11, and `out` unchanged. The answer is the writers' one: how many bytes, or why none.
pub fn write_report(r: Report, out: &mut [u8]) -> Result<u64, Refusal>
    ensures answer { result ≡ answer_of r (length out.old) }
    ensures written { out.new ≡ written_of r out.old }
{
    let mut none = [0u8; 1];
    let n = put_report(r, &mut none);
    if out.len() < n {
        return Err(Refusal::NoRoom);
    }
    put_report(r, out);
    Ok(n as u64)
}
