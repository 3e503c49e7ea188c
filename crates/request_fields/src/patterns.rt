// Floats of their patterns.

// The single of a pattern; a NaN for any NaN's.
pub(crate) fn single(b: u32) -> f32 {
    if b % 0x8000_0000 > 0x7f80_0000 {
        return 0.0 / 0.0;
    }
    f32::from_bits(b)
}

// The double of a pattern; a NaN for any NaN's.
pub(crate) fn double(b: u64) -> f64 {
    if b % 0x8000_0000_0000_0000 > 0x7ff0_0000_0000_0000 {
        return 0.0 / 0.0;
    }
    f64::from_bits(b)
}
