// The requests `norm16` and `norm32`, then LINES WINDOW WEIGHTS STARTS SIZES NOUT NEXCESSES, answered by `normalizer`.
#![tactic(auto)]

use answer_lines::{Output, Show};
use normalizer::{normalize16, normalize32};
use refusal::{Numbered, Refusal};
use request_fields::{Element, Fault, Words};

// Whether the line is one of these requests, which is answered then.
pub fn answer(line: &[u8], out: &mut Output<'_>) -> Result<bool, Fault> {
    let mut words = Words::new(line);
    match words.word()? {
        b"norm16" => normalized(words, &mut [0i16; 131072], out, normalize16),
        b"norm32" => normalized(words, &mut [0i32; 131072], out, normalize32),
        _ => Ok(false),
    }
}

// The number, the precision and the two lists that are lent, by the normaliser of the store.
fn normalized<
    W: Element + Show,
    F: FnOnce(u32, u32, &[f64], &[u32], &[u32], &mut [W], &mut [i64]) -> Result<u32, Refusal>,
>(mut words: Words<'_>, lent: &mut [W], out: &mut Output<'_>, normalize: F) -> Result<bool, Fault>
    requires { F.IsAlwaysCallable normalize }
{
    let mut weights = [0.0f64; 131072];
    let mut starts = [0u32; 131072];
    let mut sizes = [0u32; 131072];
    let mut excesses = [0i64; 131072];
    let lines = words.number()?;
    let window = words.number()?;
    let weights = words.list(&mut weights)?;
    let starts = words.list(&mut starts)?;
    let sizes = words.list(&mut sizes)?;
    let lent = words.lent(lent)?;
    let excesses = words.lent(&mut excesses)?;
    words.end()?;
    let answer = normalize(lines, window, weights, starts, sizes, lent, excesses);
    out.show(answer.number());
    out.next(answer.unwrap_or(0));
    out.byte(b' ');
    out.list(lent);
    out.byte(b' ');
    out.list(excesses);
    Ok(true)
}
