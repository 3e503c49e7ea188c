// The arguments in their order: filter, side, near edge, extent, output side, then where wished `adapt` or `fixed`, then `16` or `32`.
use crate::arguments::{Argument, edge_at, filter_at, is_at, whole_at};
use crate::unread::unread;
use crate::{Asked, making};

// Whether argument i chooses the narrow store: 32 bits where there is none. It is the last argument.
fn narrow_at(rt: HostRuntime, i: usize) -> Result<bool, Argument> {
    let n = program_streams::argument_count(rt);
    if n <= i {
        return Ok(false);
    }
    if i < n - 1 {
        return Err(Argument::Option(n - 1));
    }
    if is_at(rt, i, b"16") {
        return Ok(true);
    }
    if is_at(rt, i, b"32") {
        return Ok(false);
    }
    Err(Argument::Option(i))
}

// What is asked, or the first argument that is not understood.
fn asked(rt: HostRuntime) -> Result<Asked, Argument> {
    let filter = filter_at(rt, 1).ok_or(Argument::Filter)?;
    let side = whole_at(rt, 2).ok_or(Argument::Side)?;
    let near = edge_at(rt, 3).ok_or(Argument::Near)?;
    let extent = edge_at(rt, 4).ok_or(Argument::Extent)?;
    let output = whole_at(rt, 5).ok_or(Argument::Output)?;
    let fixed = is_at(rt, 6, b"fixed");
    let store_at = if fixed || is_at(rt, 6, b"adapt") {
        7
    } else {
        6
    };
    let narrow = narrow_at(rt, store_at)?;
    Ok(Asked {
        filter,
        side,
        near,
        extent,
        output,
        adapts: !fixed,
        narrow,
    })
}

// Reads the arguments from the first on, and prints the sheet, or what is wrong with the first that is not understood.
pub(crate) fn answer(rt: HostRuntime) {
    match asked(rt) {
        Ok(asked) => making::print(rt, asked),
        Err(argument) => unread(rt, argument),
    }
}
