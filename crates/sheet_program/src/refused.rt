// What is said of a refusal of document 01: its number, its name, the argument at fault and the limit that it breaks.
use crate::streams::{err_argument, out_argument};
use crate::{Asked, limits};
use refusal::{Numbered, Refusal};
use std::str;

fn number(rt: HostRuntime, refusal: Refusal, name: &str) {
    let number = refusal.number();
    let _ = print!(rt; "refused={number} name={name}");
}

// Argument i, which is called `what`, against the limit.
fn value(rt: HostRuntime, i: usize, what: &str, limit: &str, rule: &str) {
    let _ = print!(rt; " value=");
    out_argument(rt, i);
    let _ = println!(rt; " limit={limit}");
    let _ = eprint!(rt; "{what} ");
    err_argument(rt, i);
    let _ = eprintln!(rt; ": {rule} {limit}");
}

// A side below 1, or above 8,192.
fn side(rt: HostRuntime, i: usize, what: &str, n: u32) {
    if n < 1 {
        value(rt, i, what, "1", "it must be at least");
    } else {
        value(rt, i, what, "8192", "it must be at most");
    }
}

fn bad_side(rt: HostRuntime, near: u32, output: u32) {
    number(rt, Refusal::BadSide, "BadSide");
    if (output < 1) | (8192 < output) {
        side(rt, 5, "output side", output);
    } else {
        side(rt, 2, "side", near);
    }
}

fn not_finite(rt: HostRuntime, near: f64) {
    number(rt, Refusal::NotFinite, "NotFinite");
    if near.is_finite() {
        value(rt, 4, "extent", "finite", "it must be");
    } else {
        value(rt, 3, "near edge", "finite", "it must be");
    }
}

fn negative_extent(rt: HostRuntime) {
    number(rt, Refusal::NegativeExtent, "NegativeExtent");
    value(rt, 4, "extent", "0", "it must not be below");
}

fn start_outside(rt: HostRuntime, near: f64, side: &str) {
    number(rt, Refusal::StartOutside, "StartOutside");
    if near < 0.0 {
        value(rt, 3, "near edge", "0", "it must be at least");
    } else {
        value(rt, 3, "near edge", side, "it must be below the side,");
    }
}

fn end_outside(rt: HostRuntime, side: &str) {
    number(rt, Refusal::EndOutside, "EndOutside");
    let _ = print!(rt; " near=");
    out_argument(rt, 3);
    value(
        rt,
        4,
        "extent",
        side,
        "with the near edge it must not pass the side,",
    );
}

fn no_scale(rt: HostRuntime) {
    let rule = "the far edge less the near edge must be above";
    number(rt, Refusal::NoScale, "NoScale");
    value(rt, 4, "extent", "0", rule);
}

// No. 16: a filter whose sheets are still read.
fn retired_filter(rt: HostRuntime) {
    number(rt, Refusal::RetiredFilter, "RetiredFilter");
    let _ = print!(rt; " value=");
    out_argument(rt, 1);
    let _ = println!(rt; " allowed=box,bilinear,catmullrom");
    let _ = eprint!(rt; "filter ");
    err_argument(rt, 1);
    let _ = eprint!(rt;
        ": it is retired; its sheets are read and run as before, but no new one is made. "
    );
    let _ = eprintln!(rt; "Pick box, bilinear or catmullrom, which reaches as far");
}

fn weight_outside(rt: HostRuntime, narrow: bool) {
    number(rt, Refusal::WeightOutside, "WeightOutside");
    if narrow {
        let _ = println!(rt; " store=16");
        let _ = eprintln!(rt; "a weight does not fit the 16-bit store; take 32");
    } else {
        let _ = println!(rt; " store=32");
        let _ = eprintln!(rt; "a weight does not fit the 32-bit store");
    }
}

// No. 8: the first display line whose weights total 0.
pub(crate) fn blank(rt: HostRuntime, line: u32) {
    number(rt, Refusal::BlankWindow, "BlankWindow");
    let _ = println!(rt; " line={line}");
    let _ = eprintln!(rt;
        "display line {line}: its weights total 0; take a wider extent or another filter"
    );
}

// The refusals of a request or a normaliser. Those that speak of room are the program's own limits.
pub(crate) fn refused(rt: HostRuntime, refusal: Refusal, asked: Asked) {
    let mut room = [0u8; 64];
    let side = str::from_utf8(program_streams::argument(rt, 2, &mut room)).unwrap_or("");
    match refusal {
        Refusal::RetiredFilter => retired_filter(rt),
        Refusal::BadSide => bad_side(rt, asked.side, asked.output),
        Refusal::NotFinite => not_finite(rt, asked.near),
        Refusal::NegativeExtent => negative_extent(rt),
        Refusal::StartOutside => start_outside(rt, asked.near, side),
        Refusal::EndOutside => end_outside(rt, side),
        Refusal::NoScale => no_scale(rt),
        Refusal::WeightOutside => weight_outside(rt, asked.narrow),
        _ => limits::reached(rt, refusal),
    }
}
