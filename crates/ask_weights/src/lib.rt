// The request `build KIND ADAPT AXIS SW SH OUT L T W H NSLOTS NSTARTS NSIZES`, answered by `coefficients`.
#![tactic(auto)]

use answer_lines::Output;
use coefficients::NotBuilt;
use crop_box::CropBox;
use filter_fields::Name;
use filters::FilterType;
use plans::{Axis, Request};
use refusal::Numbered;
use request_fields::{Fault, Words};

// Whether the line is this request, which is answered then.
pub fn answer(line: &[u8], out: &mut Output<'_>) -> Result<bool, Fault> {
    let mut words = Words::new(line);
    match words.word()? {
        b"build" => build(words, out),
        _ => Ok(false),
    }
}

// What is asked for, but for its filter: ADAPT AXIS SW SH OUT L T W H.
#[derive(Clone, Copy)]
pub struct Asked {
    adapts: bool,
    axis: Axis,
    width: u32,
    height: u32,
    output: u32,
    crop: CropBox,
}

impl Asked {
    // The next words.
    pub fn read(words: &mut Words<'_>) -> Result<Asked, Fault> {
        Ok(Asked {
            adapts: words.flag()?,
            axis: axis(words.flag()?),
            width: words.number()?,
            height: words.number()?,
            output: words.number()?,
            crop: filter_fields::crop(words)?,
        })
    }

    // All of it.
    pub fn by(self, filter: FilterType) -> Request {
        Request {
            width: self.width,
            height: self.height,
            crop: self.crop,
            axis: self.axis,
            output: self.output,
            filter,
            adapts: self.adapts,
        }
    }
}

// 1 is down, 0 across.
fn axis(down: bool) -> Axis {
    if down { Axis::Down } else { Axis::Across }
}

// The three numbers and the three lists.
fn build(mut words: Words<'_>, out: &mut Output<'_>) -> Result<bool, Fault> {
    let mut slots = [0.0f64; 131072];
    let mut starts = [0u32; 131072];
    let mut sizes = [0u32; 131072];
    let name = Name::read(&mut words)?;
    let asked = Asked::read(&mut words)?;
    let slots = words.lent(&mut slots)?;
    let starts = words.lent(&mut starts)?;
    let sizes = words.lent(&mut sizes)?;
    words.end()?;
    let built = coefficients::build(asked.by(name.filter()?), slots, starts, sizes);
    show(built, out);
    out.byte(b' ');
    out.list(slots);
    out.byte(b' ');
    out.list(starts);
    out.byte(b' ');
    out.list(sizes);
    Ok(true)
}

// The number of the answer, the first blank line, the window size.
fn show(built: Result<u32, NotBuilt>, out: &mut Output<'_>) {
    out.show(built.number());
    out.next(coefficients::line(built));
    out.next(coefficients::window_size(built));
}
