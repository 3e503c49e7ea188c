// Numbers as an answer shows them.
use crate::output::Output;
use crate::patterns;
use std::fmt::{Display, Write};

// A number that an answer can show: as it is displayed, but a float as the hexadecimal digits of its pattern.
pub trait Show: Copy + Display {
    fn show(self, out: &mut Output<'_>) {
        let _ = write!(out, "{self}");
    }
}

impl Show for u8 {}

impl Show for u16 {}

impl Show for u32 {}

impl Show for u64 {}

impl Show for i16 {}

impl Show for i32 {}

impl Show for i64 {}

impl Show for f32 {
    fn show(self, out: &mut Output<'_>) {
        let _ = write!(out, "{:08x}", patterns::bits32(self));
    }
}

impl Show for f64 {
    fn show(self, out: &mut Output<'_>) {
        let _ = write!(out, "{:016x}", patterns::bits64(self));
    }
}
