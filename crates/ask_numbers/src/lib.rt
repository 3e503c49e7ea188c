// The requests `abs`, `floor`, `ceil`, `round`, `narrow` of a double's pattern and `widen` of a single's, answered by `numbers`; and `clip8 I`,
// answered by `clips`.
#![tactic(auto)]

use answer_lines::Output;
use request_fields::{Fault, Words};

// Whether the line is one of these requests, which is answered then.
pub fn answer(line: &[u8], out: &mut Output<'_>) -> Result<bool, Fault> {
    let mut words = Words::new(line);
    match words.word()? {
        b"abs" => pattern(|x| numbers::abs_bits(x), words, out),
        b"floor" => pattern(|x| numbers::floor_bits(x), words, out),
        b"ceil" => pattern(|x| numbers::ceil_bits(x), words, out),
        b"round" => pattern(|x| numbers::round_bits(x), words, out),
        b"narrow" => narrow(words, out),
        b"widen" => widen(words, out),
        b"clip8" => clip8(words, out),
        _ => Ok(false),
    }
}

// abs, floor, ceil or round X: what the function makes of a double's pattern.
fn pattern<F: FnOnce(u64) -> u64>(
    function: F,
    mut words: Words<'_>,
    out: &mut Output<'_>,
) -> Result<bool, Fault>
    requires { F.IsAlwaysCallable function }
{
    let x = words.pattern()?;
    words.end()?;
    out.hex(function(x), 16);
    Ok(true)
}

// narrow X: the narrowed pattern, and 1 where it is an infinity, else 0.
fn narrow(mut words: Words<'_>, out: &mut Output<'_>) -> Result<bool, Fault> {
    let x = words.pattern()?;
    words.end()?;
    let narrowed = numbers::narrow_bits(x);
    out.hex(u64::from(narrowed.value), 8);
    out.next(u32::from(narrowed.infinite));
    Ok(true)
}

// widen X, the pattern of a single.
fn widen(mut words: Words<'_>, out: &mut Output<'_>) -> Result<bool, Fault> {
    let x = words.pattern32()?;
    words.end()?;
    out.hex(numbers::widen_bits(x), 16);
    Ok(true)
}

// clip8 I
fn clip8(mut words: Words<'_>, out: &mut Output<'_>) -> Result<bool, Fault> {
    let x = words.number::<i32>()?;
    words.end()?;
    out.show(clips::clip8(x));
    Ok(true)
}
