// Which columns the words ask for.
use crate::said;
use frame_files::{no_number, whole_at};

// Columns of a row: so many from the first on.
#[derive(Clone, Copy)]
pub(crate) struct Range {
    pub(crate) first: u32,
    pub(crate) count: u32,
}

// Whether there are two words, or four; where there are not, that has been said.
pub(crate) fn counted(rt: HostRuntime) -> bool {
    match program_streams::argument_count(rt) {
        3 | 5 => true,
        _ => {
            said::words(rt);
            false
        }
    }
}

// The columns from FIRST on, COUNT of them.
fn ranged(rt: HostRuntime, row: u32) -> Option<Range> {
    let Some(first) = whole_at(rt, 3) else {
        no_number(rt, "first", "FIRST");
        return None;
    };
    let Some(count) = whole_at(rt, 4) else {
        no_number(rt, "count", "COUNT");
        return None;
    };
    if (row as u64) < first as u64 + count as u64 {
        said::outside(rt, first, count, row);
        return None;
    }
    Some(Range { first, count })
}

// The columns asked for, of a row, all of them where no words name some; where they are none of it, why has been said.
pub(crate) fn asked(rt: HostRuntime, row: u32) -> Option<Range> {
    if program_streams::argument_count(rt) < 5 {
        return Some(Range {
            first: 0,
            count: row,
        });
    }
    ranged(rt, row)
}
