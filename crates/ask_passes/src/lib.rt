// The requests `u16pass` and `f32pass`, answered by `vertical_u16` and `vertical_f32`. What the passes over samples of integers have in common, `pass`
// does.
#![tactic(auto)]

mod f32pass;
mod set_pass;

use answer_lines::Output;
use refusal::Numbered;
use request_fields::{Fault, Words};
pub use set_pass::{Set, pass};
use vertical::Frame;

// Whether the line is one of these requests, which is answered then.
pub fn answer(line: &[u8], out: &mut Output<'_>) -> Result<bool, Fault> {
    let mut words = Words::new(line);
    match words.word()? {
        b"u16pass" => u16pass(words, out),
        b"f32pass" => f32pass::answer(words, out),
        _ => Ok(false),
    }
}

// The next words as a frame: LINES ROW FIRST COUNT.
pub fn frame(words: &mut Words<'_>) -> Result<Frame, Fault> {
    Ok(Frame {
        lines: words.number()?,
        row: words.number()?,
        first: words.number()?,
        count: words.number()?,
    })
}

// u16pass LINES ROW FIRST COUNT WINDOW PRECISION WEIGHTS STARTS SIZES EXCESSES SAMPLES NOUT
fn u16pass(mut words: Words<'_>, out: &mut Output<'_>) -> Result<bool, Fault> {
    let frame = frame(&mut words)?;
    pass(
        words,
        &mut [0i32; 131072],
        &mut [0u16; 131072],
        &mut [0u16; 131072],
        out,
        |set: Set<'_, i32>, samples: &[u16], lent: &mut [u16]| {
            let answer = vertical_u16::vert_convolution_u16(
                samples,
                frame,
                set.weights,
                set.starts,
                set.sizes,
                set.excesses,
                set.window,
                set.precision,
                lent,
            );
            answer.number()
        },
    )
}
