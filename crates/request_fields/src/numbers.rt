// Numbers that a part of a line says in digits.

// The part as digits of the base.
fn whole(base: u64, part: &[u8]) -> Option<u64> {
    numerals::read_number(base, part, 0, part.len(), u64::MAX).ok()
}

// A number in decimal.
pub(crate) fn decimal(part: &[u8]) -> Option<u64> {
    whole(10, part)
}

// A number in decimal, up to a largest one.
pub(crate) fn at_most(most: usize, part: &[u8]) -> Option<usize> {
    let x = usize::try_from(decimal(part)?).ok()?;
    (x <= most).then_some(x)
}

// A number in decimal with a minus sign or none. `-0` is malformed.
pub(crate) fn signed(part: &[u8]) -> Option<i64> {
    match part.split_first() {
        // -x is !(x - 1), and of the least number x itself would be too large
        Some((b'-', digits)) => Some(!i64::try_from(decimal(digits)?.checked_sub(1)?).ok()?),
        _ => i64::try_from(decimal(part)?).ok(),
    }
}

// A double's pattern: 16 hexadecimal digits.
pub(crate) fn pattern(part: &[u8]) -> Option<u64> {
    if part.len() != 16 {
        return None;
    }
    whole(16, part)
}

// A single's pattern: 8 hexadecimal digits.
pub(crate) fn pattern32(part: &[u8]) -> Option<u32> {
    if part.len() != 8 {
        return None;
    }
    u32::try_from(whole(16, part)?).ok()
}

// A byte: two hexadecimal digits.
pub(crate) fn byte(pair: &[u8]) -> Option<u8> {
    if pair.len() != 2 {
        return None;
    }
    u8::try_from(whole(16, pair)?).ok()
}
