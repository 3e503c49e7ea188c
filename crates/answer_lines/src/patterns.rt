// The patterns of floats; one pattern for every NaN.

// The pattern of a single.
pub(crate) fn bits32(x: f32) -> u32 {
    if x != x {
        return 0x7fc0_0000;
    }
    f32::to_bits(x)
}

// The pattern of a double.
pub(crate) fn bits64(x: f64) -> u64 {
    if x != x {
        return 0x7ff8_0000_0000_0000;
    }
    f64::to_bits(x)
}
