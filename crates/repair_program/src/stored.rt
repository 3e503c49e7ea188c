// The functions of the two stores, as one trait: a set is repaired and printed by one piece of code, with the functions of its own store.
use accept_offers::{accept_offer16, accept_offer32};
use filters::FilterType;
use make_offers::{make_offer16, make_offer32};
use refusal::Refusal;
use repairs::NotOffered;
use write_sheets::{write_sheet16, write_sheet32};

// A weight as a store holds it.
pub(crate) trait Stored: Copy {
    // An offer of our own for a stored set.
    fn make_offer(
        lines: u32,
        window_size: u32,
        precision: u32,
        weights: &[Self],
        starts: &[u32],
        sizes: &[u32],
        excesses: &[i64],
        out: &mut [Self],
    ) -> Result<(), NotOffered>;

    // An offer for a stored set judged, and taken over.
    fn accept_offer(
        lines: u32,
        window_size: u32,
        precision: u32,
        weights: &mut [Self],
        starts: &[u32],
        sizes: &[u32],
        excesses: &mut [i64],
        offered_window_size: u32,
        offered_precision: u32,
        offered_starts: &[u32],
        offered_sizes: &[u32],
        offered_weights: &[Self],
    ) -> Result<(), Refusal>;

    // The sheet of a stored set.
    fn write_sheet(
        kind: FilterType,
        lines: u32,
        window_size: u32,
        precision: u32,
        weights: &[Self],
        starts: &[u32],
        sizes: &[u32],
        excesses: &[i64],
        out: &mut [u8],
    ) -> Result<u64, Refusal>;
}

impl Stored for i16 {
    fn make_offer(
        lines: u32,
        window_size: u32,
        precision: u32,
        weights: &[i16],
        starts: &[u32],
        sizes: &[u32],
        excesses: &[i64],
        out: &mut [i16],
    ) -> Result<(), NotOffered> {
        make_offer16(
            lines,
            window_size,
            precision,
            weights,
            starts,
            sizes,
            excesses,
            out,
        )
    }

    fn accept_offer(
        lines: u32,
        window_size: u32,
        precision: u32,
        weights: &mut [i16],
        starts: &[u32],
        sizes: &[u32],
        excesses: &mut [i64],
        offered_window_size: u32,
        offered_precision: u32,
        offered_starts: &[u32],
        offered_sizes: &[u32],
        offered_weights: &[i16],
    ) -> Result<(), Refusal> {
        accept_offer16(
            lines,
            window_size,
            precision,
            weights,
            starts,
            sizes,
            excesses,
            offered_window_size,
            offered_precision,
            offered_starts,
            offered_sizes,
            offered_weights,
        )
    }

    fn write_sheet(
        kind: FilterType,
        lines: u32,
        window_size: u32,
        precision: u32,
        weights: &[i16],
        starts: &[u32],
        sizes: &[u32],
        excesses: &[i64],
        out: &mut [u8],
    ) -> Result<u64, Refusal> {
        write_sheet16(
            kind,
            lines,
            window_size,
            precision,
            weights,
            starts,
            sizes,
            excesses,
            out,
        )
    }
}

impl Stored for i32 {
    fn make_offer(
        lines: u32,
        window_size: u32,
        precision: u32,
        weights: &[i32],
        starts: &[u32],
        sizes: &[u32],
        excesses: &[i64],
        out: &mut [i32],
    ) -> Result<(), NotOffered> {
        make_offer32(
            lines,
            window_size,
            precision,
            weights,
            starts,
            sizes,
            excesses,
            out,
        )
    }

    fn accept_offer(
        lines: u32,
        window_size: u32,
        precision: u32,
        weights: &mut [i32],
        starts: &[u32],
        sizes: &[u32],
        excesses: &mut [i64],
        offered_window_size: u32,
        offered_precision: u32,
        offered_starts: &[u32],
        offered_sizes: &[u32],
        offered_weights: &[i32],
    ) -> Result<(), Refusal> {
        accept_offer32(
            lines,
            window_size,
            precision,
            weights,
            starts,
            sizes,
            excesses,
            offered_window_size,
            offered_precision,
            offered_starts,
            offered_sizes,
            offered_weights,
        )
    }

    fn write_sheet(
        kind: FilterType,
        lines: u32,
        window_size: u32,
        precision: u32,
        weights: &[i32],
        starts: &[u32],
        sizes: &[u32],
        excesses: &[i64],
        out: &mut [u8],
    ) -> Result<u64, Refusal> {
        write_sheet32(
            kind,
            lines,
            window_size,
            precision,
            weights,
            starts,
            sizes,
            excesses,
            out,
        )
    }
}
