// The program `demo_frame`: a raw frame of LINES camera lines of ROW samples, to standard output, low byte first; the same at every run. Four panels side by side: a ramp down the lines, bars of
// twelve lines with sharp edges, a ramp that goes on across lines and columns, and noise from a fixed seed, of which all panels have a grain. No contract says what is
// written, since none could speak of the streams; every function is safe at every argument.
#![tactic(auto)]

mod picture;

use std::io;

// One line's samples and bytes stand here, apart from what fills them.
fn main(rt: HostRuntime) {
    let mut samples = [0u16; 32768];
    let mut bytes = [0u8; 65536];
    sized(rt, &mut samples, &mut bytes);
}

// The two words. What the system said of a write that failed is told.
fn sized(rt: HostRuntime, samples: &mut [u16], bytes: &mut [u8]) {
    let Some(lines) = frame_files::whole_at(rt, 1) else {
        return frame_files::no_number(rt, "lines", "LINES");
    };
    let Some(row) = frame_files::whole_at(rt, 2) else {
        return frame_files::no_number(rt, "row", "ROW");
    };
    if let Err(why) = written(rt, lines, row as usize, samples, bytes) {
        program_streams::failed(rt, b"the frame cannot be written", why);
    }
}

// The frame, from the parts of the two lists that a line has; of rows that are longer nothing is made.
fn written(
    rt: HostRuntime,
    lines: u32,
    row: usize,
    samples: &mut [u16],
    bytes: &mut [u8],
) -> io::Result<()> {
    if samples.len() < row || bytes.len() / 2 < row {
        return Ok(());
    }
    picture::lines(rt, lines, &mut samples[..row], &mut bytes[..row * 2])
}
