// One argument, as a name, a whole number or an edge; and what is wrong with it where it is none of these.
use filters::FilterType;
use numerals::NumberError;
use program_streams::argument;
use sheet::keys;
use std::env::FillError;
use std::rt::Env;

// The arguments by what they stand for; after the output side each is an option, by its place.
#[derive(Clone, Copy)]
pub(crate) enum Argument {
    Filter,
    Side,
    Near,
    Extent,
    Output,
    Option(usize),
}

// Why an argument was not read: there is none, it has more than 64 bytes, it has capital letters, or it is another word.
#[derive(Clone, Copy)]
pub(crate) enum Why {
    Missing,
    Long,
    Capitals,
    Unknown,
}

// A word as a filter's name.
fn filter_of(word: &[u8]) -> Option<FilterType> {
    if word == keys::BOX.as_slice() {
        return Some(FilterType::Box);
    }
    if word == keys::BILINEAR.as_slice() {
        return Some(FilterType::Bilinear);
    }
    if word == keys::CATMULL_ROM.as_slice() {
        return Some(FilterType::CatmullRom);
    }
    if word == keys::MITCHELL.as_slice() {
        return Some(FilterType::Mitchell);
    }
    None
}

// A whole number as a side: one above 2^32 - 1 is held there, so that it is refused as that is.
fn held(n: Result<u64, NumberError>) -> Option<u32> {
    match n {
        Ok(x) => Some(u32::try_from(x).unwrap_or(u32::MAX)),
        Err(NumberError::TooLarge) => Some(u32::MAX),
        Err(NumberError::Malformed) => None,
    }
}

// A number below 0 as a side: 0, which is refused as it is.
fn below(n: Result<u64, NumberError>) -> Option<u32> {
    match n {
        Ok(_) | Err(NumberError::TooLarge) => Some(0),
        Err(NumberError::Malformed) => None,
    }
}

// A word as a whole number.
fn whole_of(word: &[u8]) -> Option<u32> {
    match word.strip_prefix(b"-") {
        Some(digits) => below(numerals::read_number(10, digits, 0, digits.len(), 0)),
        None => held(numerals::read_number(10, word, 0, word.len(), 0xffff_ffff)),
    }
}

// Argument i as a filter's name.
pub(crate) fn filter_at(rt: HostRuntime, i: usize) -> Option<FilterType> {
    let mut room = [0u8; 64];
    filter_of(argument(rt, i, &mut room))
}

// Argument i as a whole number.
pub(crate) fn whole_at(rt: HostRuntime, i: usize) -> Option<u32> {
    let mut room = [0u8; 64];
    whole_of(argument(rt, i, &mut room))
}

// Argument i as an edge.
pub(crate) fn edge_at(rt: HostRuntime, i: usize) -> Option<f64> {
    let mut room = [0u8; 64];
    crop_edges::read_edge(argument(rt, i, &mut room))
}

// Whether argument i is the name.
pub(crate) fn is_at(rt: HostRuntime, i: usize, name: &[u8]) -> bool {
    let mut room = [0u8; 64];
    argument(rt, i, &mut room) == name
}

// Why argument i was not read.
pub(crate) fn reason_at(rt: HostRuntime, i: usize) -> Why {
    let mut room = [0u8; 64];
    match rt.arg(i, &mut room) {
        Err(FillError::NotPresent) => Why::Missing,
        Err(FillError::TooLong) => Why::Long,
        Ok(n) if room[..n].iter().any(|b| b.is_ascii_uppercase()) => Why::Capitals,
        Ok(_) => Why::Unknown,
    }
}
