// What an answer shows before the lists: number, byte, what the head lines say.
use answer_lines::Output;
use filters::FilterType;
use reader::Unread;
use refusal::Numbered;
use sheet::keys;
use sheet_scan::{Sizes, StoreLines};

// Number, byte and head.
pub(crate) fn show(answer: Result<(Sizes, StoreLines), Unread>, out: &mut Output<'_>) {
    out.show(answer.number());
    out.next(reader::byte(answer));
    match answer {
        Ok((sizes, store)) => loaded(sizes, store, out),
        Err(Unread::TooFew) => out.word(b" - 0 0 0 0 0"),
        Err(Unread::NotASheet(_)) => out.word(b" - 0 0 0 0 0"),
    }
}

// Kind, camera lines, window size, store, precision, windows.
fn loaded(sizes: Sizes, store: StoreLines, out: &mut Output<'_>) {
    out.byte(b' ');
    name(sizes.kind, out);
    out.next(sizes.lines);
    out.next(sizes.window_size);
    out.next(store.bits);
    out.next(store.precision);
    out.next(sizes.windows);
}

// A filter's name.
fn name(kind: FilterType, out: &mut Output<'_>) {
    match kind {
        FilterType::Box => out.word(&keys::BOX),
        FilterType::Bilinear => out.word(&keys::BILINEAR),
        FilterType::CatmullRom => out.word(&keys::CATMULL_ROM),
        FilterType::Mitchell => out.word(&keys::MITCHELL),
    }
}
