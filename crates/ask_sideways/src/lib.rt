// The request `sideways COMPONENTS ROWS ROW FIRST COUNT WINDOW PRECISION WEIGHTS STARTS SIZES EXCESSES SAMPLES NOUT`, answered by `sideways_u16`.
#![tactic(auto)]

use answer_lines::Output;
use ask_passes::Set;
use refusal::Numbered;
use request_fields::{Fault, Words};
use sideways_u16::PixelFrame;

// Whether the line is this request, which is answered then.
pub fn answer(line: &[u8], out: &mut Output<'_>) -> Result<bool, Fault> {
    let mut words = Words::new(line);
    match words.word()? {
        b"sideways" => sideways(words, out),
        _ => Ok(false),
    }
}

// The next words as a frame: COMPONENTS ROWS ROW FIRST COUNT.
fn frame(words: &mut Words<'_>) -> Result<PixelFrame, Fault> {
    Ok(PixelFrame {
        components: words.number()?,
        rows: words.number()?,
        row: words.number()?,
        first: words.number()?,
        count: words.number()?,
    })
}

// The pass's number and the output. The frame is read before the lists are laid out, which stand in a function of their own: else they are made zeros twice.
fn sideways(mut words: Words<'_>, out: &mut Output<'_>) -> Result<bool, Fault> {
    let frame = frame(&mut words)?;
    passed(frame, words, out)
}

#[inline(never)]
fn passed(frame: PixelFrame, words: Words<'_>, out: &mut Output<'_>) -> Result<bool, Fault> {
    ask_passes::pass(
        words,
        &mut [0i32; 131072],
        &mut [0u16; 131072],
        &mut [0u16; 131072],
        out,
        |set: Set<'_, i32>, samples: &[u16], lent: &mut [u16]| {
            let answer = sideways_u16::horiz_convolution_u16(
                samples,
                frame,
                set.weights,
                set.starts,
                set.sizes,
                set.excesses,
                set.window,
                set.precision,
                lent,
            );
            answer.number()
        },
    )
}
