// One line's answer, by the first group of requests that knows it.
use answer_lines::Output;
use request_fields::{Fault, Reason};

// Whether some group knows the line, which is answered then. One more group of requests is one more line here.
fn asked(line: &[u8], out: &mut Output<'_>) -> Result<bool, Fault> {
    Ok(
        ask_numbers::answer(line, out)?
            || ask_crop::answer(line, out)?
            || ask_alpha::answer(line, out)?
            || ask_alpha_u16::answer(line, out)?
            || ask_normalizer::answer(line, out)?
            || ask_weights::answer(line, out)?
            || ask_passes::answer(line, out)?
            || ask_passes_u8::answer(line, out)?
            || ask_sideways::answer(line, out)?
            || ask_sheet::answer(line, out)?
            || ask_reader::answer(line, out)?
            || ask_story::answer(line, out)?
            || ask_book::answer(line, out)?
            || ask_repairs::answer(line, out)?
            || ask_store::answer(line, out)?,
    )
}

// What is wrong with the line, if anything is; where nothing is, it is answered. An empty line is answered by an empty line.
fn answered(line: &[u8], out: &mut Output<'_>) -> Result<(), Fault> {
    if line.is_empty() {
        return Ok(());
    }
    if line.ends_with(b"\r") {
        return Err(Fault {
            word: 0,
            reason: Reason::CarriageReturn,
        });
    }
    if asked(line, out)? {
        return Ok(());
    }
    Err(Fault {
        word: 1,
        reason: Reason::NoRequest,
    })
}

// The answer to the line, and its end.
pub(crate) fn answer(line: &[u8], out: &mut Output<'_>) {
    if let Err(fault) = answered(line, out) {
        out.bad(fault);
    }
    out.byte(b'\n');
}

// The answer to a line that did not fit.
pub(crate) fn too_long(out: &mut Output<'_>) {
    out.bad(Fault {
        word: 0,
        reason: Reason::TooLong,
    });
    out.byte(b'\n');
}
