// The samples of the two passes: how a sheet is read for them, how they stand in a file, and the pass itself.
use crate::places;
use crate::places::Strip;
use crate::said::Ended;
use frame_files::{bytes_in, decode, encode};
use reader::Unread;
use refusal::Refusal;
use sheet_scan::{Sizes, StoreLines};
use std::fs::File;
use std::io;
use vertical::Frame;
use vertical_u8::vert_convolution_u8;
use vertical_u16::vert_convolution_u16;

// A sample of 8 or of 16 bits, and the weights of its pass.
pub(crate) trait Sample: Copy {
    type Weight: Copy;

    // Whether it has two bytes in a file.
    const WIDE: bool;

    // The sheet in a text, of the stores that the pass takes.
    fn read_sheet(
        text: &[u8],
        weights: &mut [Self::Weight],
        starts: &mut [u32],
        sizes: &mut [u32],
        excesses: &mut [i64],
    ) -> Result<(Sizes, StoreLines), Unread>;

    // The samples of a strip, read from a file; `bytes` is room for what is to be turned into samples.
    fn fetch(file: &File, s: Strip, bytes: &mut [u8], samples: &mut [Self]) -> Result<(), Ended>;

    // The samples of a strip, written to the frame that goes out, with the same room.
    fn store(
        rt: HostRuntime,
        to: &io::Result<File>,
        s: Strip,
        samples: &[Self],
        bytes: &mut [u8],
    ) -> Result<(), Ended>;

    // The pass over a frame.
    fn pass(
        samples: &[Self],
        frame: Frame,
        weights: &[Self::Weight],
        starts: &[u32],
        sizes: &[u32],
        excesses: &[i64],
        window_size: u32,
        precision: u32,
        out: &mut [Self],
    ) -> Result<(), Refusal>;
}

// How many bytes the samples are in a file.
fn bytes_of(samples: &[u16]) -> usize {
    samples.len().saturating_mul(bytes_in(1, true) as usize)
}

impl Sample for u16 {
    type Weight = i32;

    const WIDE: bool = true;

    fn read_sheet(
        text: &[u8],
        weights: &mut [i32],
        starts: &mut [u32],
        sizes: &mut [u32],
        excesses: &mut [i64],
    ) -> Result<(Sizes, StoreLines), Unread> {
        reader::read_sheet(text, weights, starts, sizes, excesses)
    }

    fn fetch(file: &File, s: Strip, bytes: &mut [u8], samples: &mut [u16]) -> Result<(), Ended> {
        let e = bytes_of(samples);
        if bytes.len() < e {
            return Err(Ended::Frame);
        }
        places::read(file, s, &mut bytes[..e])?;
        decode(&bytes[..e], samples);
        Ok(())
    }

    fn store(
        rt: HostRuntime,
        to: &io::Result<File>,
        s: Strip,
        samples: &[u16],
        bytes: &mut [u8],
    ) -> Result<(), Ended> {
        let e = bytes_of(samples);
        if bytes.len() < e {
            return Err(Ended::Full);
        }
        encode(samples, &mut bytes[..e]);
        places::put(rt, to, s, &bytes[..e])
    }

    fn pass(
        samples: &[u16],
        frame: Frame,
        weights: &[i32],
        starts: &[u32],
        sizes: &[u32],
        excesses: &[i64],
        window_size: u32,
        precision: u32,
        out: &mut [u16],
    ) -> Result<(), Refusal> {
        vert_convolution_u16(
            samples,
            frame,
            weights,
            starts,
            sizes,
            excesses,
            window_size,
            precision,
            out,
        )
    }
}

impl Sample for u8 {
    type Weight = i16;

    const WIDE: bool = false;

    fn read_sheet(
        text: &[u8],
        weights: &mut [i16],
        starts: &mut [u32],
        sizes: &mut [u32],
        excesses: &mut [i64],
    ) -> Result<(Sizes, StoreLines), Unread> {
        reader::read_sheet16(text, weights, starts, sizes, excesses)
    }

    // A byte is a sample, so nothing is turned into anything.
    fn fetch(file: &File, s: Strip, _bytes: &mut [u8], samples: &mut [u8]) -> Result<(), Ended> {
        places::read(file, s, samples)
    }

    fn store(
        rt: HostRuntime,
        to: &io::Result<File>,
        s: Strip,
        samples: &[u8],
        _bytes: &mut [u8],
    ) -> Result<(), Ended> {
        places::put(rt, to, s, samples)
    }

    fn pass(
        samples: &[u8],
        frame: Frame,
        weights: &[i16],
        starts: &[u32],
        sizes: &[u32],
        excesses: &[i64],
        window_size: u32,
        precision: u32,
        out: &mut [u8],
    ) -> Result<(), Refusal> {
        vert_convolution_u8(
            samples,
            frame,
            weights,
            starts,
            sizes,
            excesses,
            window_size,
            precision,
            out,
        )
    }
}
