// The request `fit SW SH DW DH none`, or with two centring numbers in place of `none`.
use answer_lines::Output;
use crop_box::CropBox;
use refusal::Numbered;
use request_fields::{Element, Fault, Kind, Words};

// The centring, the last fields.
fn centring(words: &mut Words<'_>) -> Result<Option<(f64, f64)>, Fault> {
    let first = words.word()?;
    if first == b"none".as_slice() {
        return Ok(None);
    }
    let x = f64::read(first).ok_or(words.not(Kind::F64))?;
    Ok(Some((x, words.number()?)))
}

// The line's answer: a number and the box.
pub(crate) fn fit(mut words: Words<'_>, out: &mut Output<'_>) -> Result<bool, Fault> {
    let source_width = words.number()?;
    let source_height = words.number()?;
    let width = words.number()?;
    let height = words.number()?;
    let place = centring(&mut words)?;
    words.end()?;
    let fitted = crop_fit::fit_src_into_dst_size(source_width, source_height, width, height, place);
    out.show(fitted.number());
    let b = fitted.unwrap_or(no_box());
    out.next(b.left);
    out.next(b.top);
    out.next(b.width);
    out.next(b.height);
    Ok(true)
}

// The four numbers beside a refusal.
fn no_box() -> CropBox {
    CropBox {
        left: 0.0,
        top: 0.0,
        width: 0.0,
        height: 0.0,
    }
}
