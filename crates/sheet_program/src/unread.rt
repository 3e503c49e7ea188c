// What is said of an argument that is not understood: its key, why, the words allowed, and the word.
use crate::arguments::{Argument, Why, reason_at};
use crate::streams::{err_argument, out_argument};

// The answer's word for it, and how the reason in words begins.
fn because(rt: HostRuntime, i: usize, key: &str) {
    let (why, reason) = match reason_at(rt, i) {
        Why::Missing => ("missing", "missing: '"),
        Why::Long => ("long", "longer than 64 bytes: '"),
        Why::Capitals => ("capitals", "small letters only: '"),
        Why::Unknown => ("unknown", "not understood: '"),
    };
    let _ = print!(rt; "unread={key} why={why}");
    let _ = eprint!(rt; "{reason}");
}

// The whole of it.
fn misread(rt: HostRuntime, i: usize, key: &str, called: &str, allowed: &str, reason: &str) {
    because(rt, i, key);
    let _ = print!(rt; " allowed={allowed} word=");
    out_argument(rt, i);
    let _ = println!(rt);
    err_argument(rt, i);
    let _ = eprintln!(rt; "' as the {called}, which is {reason}");
    let _ = eprintln!(rt; "the words are: FILTER SIDE NEAR EXTENT OUTPUT [adapt|fixed] [16|32]");
}

// A side.
fn whole(rt: HostRuntime, i: usize, key: &str, called: &str) {
    misread(rt, i, key, called, "1..8192", "a whole number, 1 to 8192");
}

// An edge, or the extent.
fn edge(rt: HostRuntime, i: usize, key: &str, called: &str) {
    let reason = "a decimal of up to 15 digits, or 0x and the 16 hexadecimal digits of a double";
    misread(rt, i, key, called, "decimal,0x", reason);
}

// An argument.
pub(crate) fn unread(rt: HostRuntime, argument: Argument) {
    match argument {
        Argument::Filter => {
            let names = "box,bilinear,catmullrom";
            let reason = "box, bilinear or catmullrom";
            misread(rt, 1, "filter", "filter", names, reason);
        }
        Argument::Side => whole(rt, 2, "side", "side"),
        Argument::Near => edge(rt, 3, "near", "near edge"),
        Argument::Extent => edge(rt, 4, "extent", "extent"),
        Argument::Output => whole(rt, 5, "output", "output side"),
        Argument::Option(i) => {
            let reason = "adapt or fixed, then 16 or 32, then no more";
            misread(rt, i, "option", "option", "adapt,fixed,16,32", reason);
        }
    }
}
