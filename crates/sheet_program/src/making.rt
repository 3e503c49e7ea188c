// What is asked becomes a request, the request a set of doubles in lists of the program's own. A request that document 01 accepts needs at
// most 57,344 slots (docs/DECISIONS.md, "Answers of the printing program"), so the lists are long enough.
use crate::refused::{blank, refused};
use crate::stores::sheet;
use crate::{Asked, limits};
use coefficients::NotBuilt;
use crop_box::CropBox;
use normalizer::{normalize16, normalize32};
use plans::{Axis, Request};
use write_sheets::{write_sheet16, write_sheet32};

// The request: an image one column wide, built down its side.
fn request(asked: Asked) -> Request {
    Request {
        width: 1,
        height: asked.side,
        crop: CropBox {
            left: 0.0,
            top: asked.near,
            width: 1.0,
            height: asked.extent,
        },
        axis: Axis::Down,
        output: asked.output,
        filter: asked.filter,
        adapts: asked.adapts,
    }
}

// Prints the sheet of what is asked, or says why there is none.
pub(crate) fn print(rt: HostRuntime, asked: Asked) {
    let mut weights = [0.0f64; 65536];
    let mut starts = [0u32; 8192];
    let mut sizes = [0u32; 8192];
    build(rt, asked, &mut weights, &mut starts, &mut sizes);
}

// Builds the set, in lists that stand apart from this.
fn build(
    rt: HostRuntime,
    asked: Asked,
    weights: &mut [f64],
    starts: &mut [u32],
    sizes: &mut [u32],
) {
    let built = coefficients::build(request(asked), weights, starts, sizes);
    match built {
        Ok(window) => count_slots(rt, asked, window, weights, starts, sizes),
        Err(NotBuilt::Blank(line)) => blank(rt, line.0),
        Err(NotBuilt::Refused(refusal)) => refused(rt, refusal, asked),
    }
}

// A set of doubles, in lists as long as it is: window size slots, a start and a size for each window.
#[derive(Clone, Copy)]
pub(crate) struct Set<'a> {
    pub(crate) window: u32,
    pub(crate) weights: &'a [f64],
    pub(crate) starts: &'a [u32],
    pub(crate) sizes: &'a [u32],
}

// The set of so many windows, without the slots, starts and sizes that were not asked for; none where the lists are shorter.
fn cut<'a>(
    output: u32,
    window: u32,
    weights: &'a [f64],
    starts: &'a [u32],
    sizes: &'a [u32],
) -> Option<Set<'a>> {
    let n = output as usize;
    let slots = n.checked_mul(window as usize)?;
    Some(Set {
        window,
        weights: weights.get(..slots)?,
        starts: starts.get(..n)?,
        sizes: sizes.get(..n)?,
    })
}

// The sheet of the set's own part of the lists, in the store that is asked for.
fn count_slots(
    rt: HostRuntime,
    asked: Asked,
    window: u32,
    weights: &[f64],
    starts: &[u32],
    sizes: &[u32],
) {
    let Some(set) = cut(asked.output, window, weights, starts, sizes) else {
        return limits::slots(rt);
    };
    if asked.narrow {
        let mut store = [0i16; 65536];
        sheet(rt, asked, set, &mut store, normalize16, write_sheet16);
    } else {
        let mut store = [0i32; 65536];
        sheet(rt, asked, set, &mut store, normalize32, write_sheet32);
    }
}
