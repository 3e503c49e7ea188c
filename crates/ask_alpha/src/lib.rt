// The requests `mul8 SRC NOUT`, `div8 SRC NOUT` and, in place, `mul8in SRC`, `div8in SRC`, answered by `alpha`. What such requests have in common whatever
// their components are, `apart` and `in_place` do.
#![tactic(auto)]

use answer_lines::{Output, Show};
use refusal::Numbered;
use request_fields::{Element, Fault, Words};

// Whether the line is one of these requests, which is answered then.
pub fn answer(line: &[u8], out: &mut Output<'_>) -> Result<bool, Fault> {
    let mut words = Words::new(line);
    match words.word()? {
        b"mul8" => apart(
            words,
            &mut [0; 131072],
            &mut [0; 131072],
            out,
            |src: &[u8], lent: &mut [u8]| { alpha::multiply_alpha(src, lent).number() },
        ),
        b"div8" => apart(
            words,
            &mut [0; 131072],
            &mut [0; 131072],
            out,
            |src: &[u8], lent: &mut [u8]| { alpha::divide_alpha(src, lent).number() },
        ),
        b"mul8in" => in_place(words, &mut [0; 131072], out, |pixels: &mut [u8]| {
            alpha::multiply_alpha_inplace(pixels).number()
        }),
        b"div8in" => in_place(words, &mut [0; 131072], out, |pixels: &mut [u8]| {
            alpha::divide_alpha_inplace(pixels).number()
        }),
        _ => Ok(false),
    }
}

// From one list into another: the function's number and what it made of the other.
pub fn apart<T: Element + Show, F: FnOnce(&[T], &mut [T]) -> u32>(
    mut words: Words<'_>,
    src: &mut [T],
    lent: &mut [T],
    out: &mut Output<'_>,
    apply: F,
) -> Result<bool, Fault>
    requires { F.IsAlwaysCallable apply }
{
    let src = words.list(src)?;
    let lent = words.lent(lent)?;
    words.end()?;
    out.show(apply(src, lent));
    out.byte(b' ');
    out.list(lent);
    Ok(true)
}

// The list itself: the function's number and what it made of it.
pub fn in_place<T: Element + Show, F: FnOnce(&mut [T]) -> u32>(
    mut words: Words<'_>,
    pixels: &mut [T],
    out: &mut Output<'_>,
    apply: F,
) -> Result<bool, Fault>
    requires { F.IsAlwaysCallable apply }
{
    let pixels = words.list(pixels)?;
    words.end()?;
    out.show(apply(pixels));
    out.byte(b' ');
    out.list(pixels);
    Ok(true)
}
