// The fixed byte strings of a report.
pub const SHEETS: [u8; 7] = *b"sheets=";

pub const WINDOWS: [u8; 8] = *b"windows=";

pub const LEAST: [u8; 6] = *b"least=";

pub const MOST: [u8; 5] = *b"most=";

pub const NOT_FLAT: [u8; 8] = *b"notflat=";

pub const NEGATIVE: [u8; 9] = *b"negative=";

pub const STOPPED: [u8; 8] = *b"stopped=";
