// The types of elements that a list has.
use crate::fault::Kind;
use crate::{numbers, patterns};

// An element, which a word or a part of a list says, or, in a list that is lent, a small number.
pub trait Element: Copy + From<u8> {
    // What such a word is, and each element of such a list.
    const KIND: Kind;

    // The element that the part says, where it says one.
    fn read(part: &[u8]) -> Option<Self>;
}

impl Element for u8 {
    const KIND: Kind = Kind::U8;

    fn read(part: &[u8]) -> Option<u8> {
        u8::try_from(numbers::decimal(part)?).ok()
    }
}

impl Element for u16 {
    const KIND: Kind = Kind::U16;

    fn read(part: &[u8]) -> Option<u16> {
        u16::try_from(numbers::decimal(part)?).ok()
    }
}

impl Element for u32 {
    const KIND: Kind = Kind::U32;

    fn read(part: &[u8]) -> Option<u32> {
        u32::try_from(numbers::decimal(part)?).ok()
    }
}

impl Element for i16 {
    const KIND: Kind = Kind::I16;

    fn read(part: &[u8]) -> Option<i16> {
        i16::try_from(numbers::signed(part)?).ok()
    }
}

impl Element for i32 {
    const KIND: Kind = Kind::I32;

    fn read(part: &[u8]) -> Option<i32> {
        i32::try_from(numbers::signed(part)?).ok()
    }
}

impl Element for i64 {
    const KIND: Kind = Kind::I64;

    fn read(part: &[u8]) -> Option<i64> {
        numbers::signed(part)
    }
}

impl Element for f32 {
    const KIND: Kind = Kind::F32;

    fn read(part: &[u8]) -> Option<f32> {
        Some(patterns::single(numbers::pattern32(part)?))
    }
}

impl Element for f64 {
    const KIND: Kind = Kind::F64;

    fn read(part: &[u8]) -> Option<f64> {
        Some(patterns::double(numbers::pattern(part)?))
    }
}
