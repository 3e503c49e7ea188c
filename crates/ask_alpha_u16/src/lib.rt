// The requests `mul16 SRC NOUT`, `div16 SRC NOUT` and, in place, `mul16in SRC`, `div16in SRC`, answered by `alpha_u16` as those of 8 bits are by `alpha`.
#![tactic(auto)]

use answer_lines::Output;
use refusal::Numbered;
use request_fields::{Fault, Words};

// Whether the line is one of these requests, which is answered then.
pub fn answer(line: &[u8], out: &mut Output<'_>) -> Result<bool, Fault> {
    let mut words = Words::new(line);
    match words.word()? {
        b"mul16" => ask_alpha::apart(
            words,
            &mut [0; 131072],
            &mut [0; 131072],
            out,
            |src: &[u16], lent: &mut [u16]| { alpha_u16::multiply_alpha(src, lent).number() },
        ),
        b"div16" => ask_alpha::apart(
            words,
            &mut [0; 131072],
            &mut [0; 131072],
            out,
            |src: &[u16], lent: &mut [u16]| { alpha_u16::divide_alpha(src, lent).number() },
        ),
        b"mul16in" => ask_alpha::in_place(words, &mut [0; 131072], out, |pixels: &mut [u16]| {
            alpha_u16::multiply_alpha_inplace(pixels).number()
        }),
        b"div16in" => ask_alpha::in_place(words, &mut [0; 131072], out, |pixels: &mut [u16]| {
            alpha_u16::divide_alpha_inplace(pixels).number()
        }),
        _ => Ok(false),
    }
}
