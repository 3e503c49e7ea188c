// The sheet of the repaired set, printed.
use crate::refused;
use crate::stored::Stored;
use program_streams::out;
use refusal::Refusal;
use sheet_files::room;
use sheet_scan::Sizes;

// The sheet of the set as it is now stored.
pub(crate) fn print<W: Stored>(
    rt: HostRuntime,
    head: Sizes,
    precision: u32,
    weights: &[W],
    starts: &[u32],
    sizes: &[u32],
    excesses: &[i64],
) {
    let mut text = [0u8; 524288];
    let answer = W::write_sheet(
        head.kind,
        head.lines,
        head.window_size,
        precision,
        weights,
        starts,
        sizes,
        excesses,
        room(&mut text),
    );
    show(rt, answer, &text);
}

// The first bytes of the list, which are the sheet.
fn show(rt: HostRuntime, answer: Result<u64, Refusal>, text: &[u8]) {
    let Ok(length) = answer else {
        return refused::too_long(rt);
    };
    match text.get(..length as usize) {
        Some(sheet) => out(rt, sheet),
        None => refused::too_long(rt),
    }
}
