// The request `u8pass LINES ROW FIRST COUNT WINDOW PRECISION WEIGHTS STARTS SIZES EXCESSES SAMPLES NOUT`, answered by `vertical_u8`.
#![tactic(auto)]

use answer_lines::Output;
use ask_passes::Set;
use refusal::Numbered;
use request_fields::{Fault, Words};

// Whether the line is this request, which is answered then.
pub fn answer(line: &[u8], out: &mut Output<'_>) -> Result<bool, Fault> {
    let mut words = Words::new(line);
    match words.word()? {
        b"u8pass" => u8pass(words, out),
        _ => Ok(false),
    }
}

// The pass's number and the output.
fn u8pass(mut words: Words<'_>, out: &mut Output<'_>) -> Result<bool, Fault> {
    let frame = ask_passes::frame(&mut words)?;
    ask_passes::pass(
        words,
        &mut [0i16; 131072],
        &mut [0u8; 131072],
        &mut [0u8; 131072],
        out,
        |set: Set<'_, i16>, samples: &[u8], lent: &mut [u8]| {
            let answer = vertical_u8::vert_convolution_u8(
                samples,
                frame,
                set.weights,
                set.starts,
                set.sizes,
                set.excesses,
                set.window,
                set.precision,
                lent,
            );
            answer.number()
        },
    )
}
