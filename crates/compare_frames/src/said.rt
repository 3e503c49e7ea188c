// What is said of two frames, and why nothing is.
use std::fmt::{Display, Formatter, Write};
use std::{fmt, io};

// Two frames with the same samples, so many; or so many samples of so many differ, and the first of them.
#[derive(Clone, Copy)]
pub(crate) enum Compared {
    Equal(u64),
    Differ {
        count: u64,
        samples: u64,
        line: u64,
        column: u64,
        a: u16,
        b: u16,
    },
}

impl Display for Compared {
    fn fmt<W: Write>(&self, f: &mut Formatter<W>) -> fmt::Result {
        match *self {
            Compared::Equal(samples) => write!(f, "equal={samples}"),
            Compared::Differ {
                count,
                samples,
                line,
                column,
                a,
                b,
            } => write!(
                f,
                "differ={count} of={samples} line={line} column={column} a={a} b={b}"
            ),
        }
    }
}

// Why two frames are not compared.
#[derive(Clone, Copy)]
pub(crate) enum Uncompared {
    // fewer words than three
    Words,
    // the row length is no number
    Row,
    // one of the files could not be opened or read
    Frame,
    // frames of different lengths
    Lengths(u64, u64),
    // so many bytes are no whole rows of so many samples
    Rows(u64, u32),
}

impl From<io::Error> for Uncompared {
    fn from(_error: io::Error) -> Uncompared {
        Uncompared::Frame
    }
}

impl Display for Uncompared {
    fn fmt<W: Write>(&self, f: &mut Formatter<W>) -> fmt::Result {
        match *self {
            Uncompared::Words => write!(f, "unread=words"),
            Uncompared::Row => write!(f, "unread=row why=number"),
            Uncompared::Frame => write!(f, "unread=frame"),
            Uncompared::Lengths(a, b) => write!(f, "unread=lengths a={a} b={b}"),
            Uncompared::Rows(bytes, row) => write!(f, "unread=rows bytes={bytes} row={row}"),
        }
    }
}
