// The two numbers of a place, from the arguments.
use frame_files::whole_at;

// A display line and a column.
#[derive(Clone, Copy)]
pub(crate) struct Place {
    pub(crate) line: u32,
    pub(crate) column: u32,
}

// Which of the two is no number.
#[derive(Clone, Copy)]
pub(crate) enum NoNumber {
    Line,
    Column,
}

// The place.
pub(crate) fn asked_place(rt: HostRuntime) -> Result<Place, NoNumber> {
    let line = whole_at(rt, 3).ok_or(NoNumber::Line)?;
    let column = whole_at(rt, 4).ok_or(NoNumber::Column)?;
    Ok(Place { line, column })
}
