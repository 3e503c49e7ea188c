// What a sheet says, in words: its head, then a line for each window.
use filters::FilterType;
use program_streams::out;
use sheet::keys;
use sheet_scan::{Sizes, StoreLines};

// The whole of it.
pub(crate) fn sheet(
    rt: HostRuntime,
    head: Sizes,
    store: StoreLines,
    starts: &[u32],
    sizes: &[u32],
    excesses: &[i64],
) {
    let precision = store.precision;
    let _ = print!(rt; "filter ");
    name(rt, head.kind);
    let _ = println!(rt;
        ", camera lines {}, display lines {}",
        head.lines, head.windows
    );
    let _ = println!(rt;
        "window size {}, store {} bits; a weight stands for itself divided by 2^{precision}",
        head.window_size, store.bits
    );
    let windows = starts.iter().zip(sizes).zip(excesses);
    for (i, ((start, size), excess)) in windows.take(head.windows as usize).enumerate() {
        window(rt, i, precision, *start, *size, *excess);
    }
}

// A filter's name.
fn name(rt: HostRuntime, kind: FilterType) {
    match kind {
        FilterType::Box => out(rt, &keys::BOX),
        FilterType::Bilinear => out(rt, &keys::BILINEAR),
        FilterType::CatmullRom => out(rt, &keys::CATMULL_ROM),
        FilterType::Mitchell => out(rt, &keys::MITCHELL),
    }
}

// The line of window i: its camera lines, and what the total of its weights is more or less than 2^precision.
fn window(rt: HostRuntime, i: usize, precision: u32, start: u32, size: u32, excess: i64) {
    let last = (start as u64 + size as u64).saturating_sub(1);
    let _ = print!(rt;
        "display line {i}: camera lines {start} to {last}, weights add up to 2^{precision}"
    );
    if excess < 0 {
        let _ = print!(rt; " - {}", excess.unsigned_abs());
    } else if 0 < excess {
        let _ = print!(rt; " + {excess}");
    }
    let _ = println!(rt);
}
