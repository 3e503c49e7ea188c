// The report, printed.
use book_numbers::Report;
use program_streams::out;
use refusal::Refusal;

// The seven lines; at most 188 bytes, so that there is room.
pub(crate) fn report(rt: HostRuntime, r: Report) {
    let mut room = [0u8; 256];
    let answer = book_text::write_report(r, &mut room);
    show(rt, answer, &room);
}

// The first bytes of the list, which are the report.
fn show(rt: HostRuntime, answer: Result<u64, Refusal>, room: &[u8]) {
    let Ok(length) = answer else {
        return;
    };
    if let Some(report) = room.get(..length as usize) {
        out(rt, report);
    }
}
