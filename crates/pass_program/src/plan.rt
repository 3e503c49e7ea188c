// What a pass is over, and how wide its strips are.
ghost use Rattle.std.specs.Prelude.{◌-◌, ◌≤◌};

use crate::columns;
use crate::places::Strip;
use sheet_scan::Sizes;
use std::fs::File;
use std::io;
use vertical::Frame;

// A pass: the frame's file and the one that goes out, the sheet's numbers, the row length, the columns asked for, and how many of them one strip has.
#[derive(Clone, Copy)]
pub(crate) struct Plan<'a> {
    pub(crate) file: &'a File,
    pub(crate) to: &'a io::Result<File>,
    pub(crate) lines: u32,
    pub(crate) windows: u32,
    pub(crate) window_size: u32,
    pub(crate) precision: u32,
    pub(crate) row: u32,
    pub(crate) first: u32,
    pub(crate) count: u32,
    pub(crate) strip: u32,
    pub(crate) wide: bool,
}

// The columns of a strip, for which the lists have room on both sides: 524,288 bytes each. A multiple of 16, since the passes go by as many.
fn strip_of(lines: u32, windows: u32, wide: bool) -> u32 {
    let room: u32 = if wide { 262144 } else { 524288 };
    let n = room.checked_div(lines.max(windows)).unwrap_or(0);
    n - n % 16
}

// The pass that the words ask for with such a sheet; where there is none, why has been said.
pub(crate) fn asked<'a>(
    rt: HostRuntime,
    file: &'a File,
    to: &'a io::Result<File>,
    head: Sizes,
    precision: u32,
    wide: bool,
) -> Option<Plan<'a>> {
    let row = frame_files::row(rt, file, head.lines, wide)?;
    let columns = columns::asked(rt, row)?;
    Some(Plan {
        file,
        to,
        lines: head.lines,
        windows: head.windows,
        window_size: head.window_size,
        precision,
        row,
        first: columns.first,
        count: columns.count,
        strip: strip_of(head.lines, head.windows, wide),
        wide,
    })
}

impl Plan<'_> {
    // How many columns the strip has that begins behind so many.
    pub(crate) fn next(self, at: u32) -> u32
        ensures { result ≤ self.entry.count - at }
    {
        self.strip.min(self.count.saturating_sub(at))
    }

    // Where it stands in the frame's file.
    pub(crate) fn taken(self, at: u32, n: u32) -> Strip {
        Strip {
            rows: self.lines,
            row: self.row,
            first: self.first.saturating_add(at),
            count: n,
            wide: self.wide,
        }
    }

    // Where it stands in what goes out.
    pub(crate) fn given(self, at: u32, n: u32) -> Strip {
        Strip {
            rows: self.windows,
            row: self.count,
            first: at,
            count: n,
            wide: self.wide,
        }
    }

    // The strip as a frame of its own.
    pub(crate) fn frame(self, n: u32) -> Frame {
        Frame {
            lines: self.lines,
            row: n,
            first: 0,
            count: n,
        }
    }
}
