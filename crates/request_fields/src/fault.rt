// What is wrong with a line.
use std::fmt;

// What a word is, or one element of its list.
#[derive(Clone, Copy, PartialEq, Eq)]
pub enum Kind {
    U8,
    U16,
    U32,
    I16,
    I32,
    I64,
    // the pattern of a single
    F32,
    // the pattern of a double
    F64,
    // 0 or 1
    Flag,
    // the length of a list that is lent
    Length,
    // the room of a sheet
    Room,
    // bytes, two hexadecimal digits each, `-` where there are none
    Text,
    // a filter's name
    Filter,
    // a store, 16 or 32
    Store,
    // the calls of a store
    Calls,
}

// The number of a word, the request's own being 1 and the whole line 0, and what is wrong with it.
#[derive(Clone, Copy, PartialEq, Eq)]
pub struct Fault {
    pub word: usize,
    pub reason: Reason,
}

#[derive(Clone, Copy, PartialEq, Eq)]
pub enum Reason {
    Not(Kind),
    TooMany,
    TooFew,
    NoRequest,
    TooLong,
    CarriageReturn,
}

impl fmt::Display for Reason {
    fn fmt<W: fmt::Write>(&self, f: &mut fmt::Formatter<W>) -> fmt::Result {
        f.write_str(match self {
            Reason::Not(kind) => refused(*kind),
            Reason::TooMany => "a word too many",
            Reason::TooFew => "a word too few",
            Reason::NoRequest => "no request",
            Reason::TooLong => "a line too long",
            Reason::CarriageReturn => "a carriage return",
        })
    }
}

// What is said of a word that is not of the kind.
fn refused(kind: Kind) -> &'static str {
    match kind {
        Kind::U8 => "not a u8",
        Kind::U16 => "not a u16",
        Kind::U32 => "not a u32",
        Kind::I16 => "not an i16",
        Kind::I32 => "not an i32",
        Kind::I64 => "not an i64",
        Kind::F32 => "not 8 hexadecimal digits",
        Kind::F64 => "not 16 hexadecimal digits",
        Kind::Flag => "not 0 or 1",
        Kind::Length => "no length up to 131072",
        Kind::Room => "no length up to 524288",
        Kind::Text => "not bytes in hexadecimal",
        Kind::Filter => "no filter",
        Kind::Store => "not 16 or 32",
        Kind::Calls => "no calls of a store",
    }
}
