// Whole numbers: one among the arguments, and the product of two.
use numerals::NumberError;

// Argument i as a whole number; one above 2^32 - 1 is held there, where no place is.
pub fn whole_at(rt: HostRuntime, i: usize) -> Option<u32> {
    let mut room = [0u8; 64];
    let word = program_streams::argument(rt, i, &mut room);
    match numerals::read_number(10, word, 0, word.len(), 0xffff_ffff) {
        Ok(x) => Some(u32::try_from(x).unwrap_or(u32::MAX)),
        Err(NumberError::TooLarge) => Some(u32::MAX),
        Err(NumberError::Malformed) => None,
    }
}

// How many places so many rows of so many have.
pub fn times(rows: u32, each: u32) -> usize {
    rows as usize * each as usize
}
