// A place of a frame: the frame's shape, and the samples of its column.
use crate::figures::Place;
use crate::frame;
use crate::set_lists::{Lists, listed};
use sheet_scan::{Sizes, StoreLines};
use std::fs::File;

// A place of a frame with such rows, in a sheet with such numbers.
#[derive(Clone, Copy)]
pub(crate) struct Asked {
    pub(crate) lines: u32,
    pub(crate) windows: u32,
    pub(crate) window_size: u32,
    pub(crate) precision: u32,
    pub(crate) row: u32,
    pub(crate) line: u32,
    pub(crate) column: u32,
}

// The frame, and what it has at the place.
pub(crate) fn story(
    rt: HostRuntime,
    head: Sizes,
    store: StoreLines,
    place: Place,
    lists: Lists<'_>,
) {
    let Some(file) = frame_files::opened(rt, 2) else {
        return frame_files::no_frame(rt);
    };
    if let Some(row) = frame_files::row(rt, &file, head.lines, true) {
        let q = Asked {
            lines: head.lines,
            windows: head.windows,
            window_size: head.window_size,
            precision: store.precision,
            row,
            line: place.line,
            column: place.column,
        };
        sampled(rt, &file, q, lists);
    }
}

// The column's samples stand here, apart from what looks at them.
fn sampled(rt: HostRuntime, file: &File, q: Asked, lists: Lists<'_>) {
    let mut samples = [0u16; 8192];
    if let Some(column) = samples.get_mut(..q.lines as usize) {
        columned(rt, file, q, column, lists);
    }
}

// The column, read. One past the row is not read: the story of column 1 of a frame one column wide is refused as it is.
fn columned(rt: HostRuntime, file: &File, q: Asked, samples: &mut [u16], lists: Lists<'_>) {
    if q.row <= q.column {
        return listed(rt, q, 1, samples, lists);
    }
    if frame::column(file, q.row, q.column, samples).is_err() {
        return frame_files::no_frame(rt);
    }
    listed(rt, q, 0, samples, lists);
}
