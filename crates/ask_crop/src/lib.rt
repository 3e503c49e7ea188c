// The requests `filter`, `crop` and `fit`, answered by `filters`, `crop_box` and `crop_fit`.
#![tactic(auto)]

mod fitting;

use answer_lines::Output;
use filter_fields::Name;
use refusal::Numbered;
use request_fields::{Fault, Words};

// Whether the line is one of these requests, which is answered then.
pub fn answer(line: &[u8], out: &mut Output<'_>) -> Result<bool, Fault> {
    let mut words = Words::new(line);
    match words.word()? {
        b"filter" => filter(words, out),
        b"crop" => crop(words, out),
        b"fit" => fitting::fit(words, out),
        _ => Ok(false),
    }
}

// filter KIND X, KIND being one that can be built with
fn filter(mut words: Words<'_>, out: &mut Output<'_>) -> Result<bool, Fault> {
    let name = Name::read(&mut words)?;
    let x = words.number()?;
    words.end()?;
    let kind = name.filter()?;
    let picked = filters::pick(kind);
    let Some(f) = picked else {
        return Err(name.fault());
    };
    out.show(filters::value(f, x));
    Ok(true)
}

// crop SW SH L T W H
fn crop(mut words: Words<'_>, out: &mut Output<'_>) -> Result<bool, Fault> {
    let width = words.number()?;
    let height = words.number()?;
    let b = filter_fields::crop(&mut words)?;
    words.end()?;
    let answer = crop_box::crop(width, height, b);
    out.show(answer.number());
    Ok(true)
}
