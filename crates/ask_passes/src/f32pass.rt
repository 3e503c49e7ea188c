// f32pass LINES ROW FIRST COUNT WINDOW WEIGHTS STARTS SIZES SAMPLES NOUT
use answer_lines::Output;
use refusal::Numbered;
use request_fields::{Fault, Words};

// The number, how many samples of the output are infinite, and the output.
pub(crate) fn answer(mut words: Words<'_>, out: &mut Output<'_>) -> Result<bool, Fault> {
    let mut weights = [0.0f64; 131072];
    let mut starts = [0u32; 131072];
    let mut sizes = [0u32; 131072];
    let mut samples = [0.0f32; 32768];
    let mut lent = [0.0f32; 131072];
    let frame = crate::frame(&mut words)?;
    let window = words.number()?;
    let weights = words.list(&mut weights)?;
    let starts = words.list(&mut starts)?;
    let sizes = words.list(&mut sizes)?;
    let samples = words.list(&mut samples)?;
    let lent = words.lent(&mut lent)?;
    words.end()?;
    let answer = vertical_f32::vert_convolution_f32(
        samples, frame, weights, starts, sizes, window, lent,
    );
    out.show(answer.number());
    out.next(vertical::infinite(answer));
    out.byte(b' ');
    out.list(lent);
    Ok(true)
}
