// The fixed byte strings of a story. Commas and newlines are the sheet's.
pub const LINE: [u8; 5] = *b"line=";

pub const TOTAL: [u8; 6] = *b"total=";

pub const HALF: [u8; 5] = *b"half=";

pub const SHIFTED: [u8; 8] = *b"shifted=";

pub const CLIP: [u8; 5] = *b"clip=";

pub const FINAL: [u8; 6] = *b"final=";

// the words of the clip
pub const LOW: [u8; 3] = *b"low";

pub const HIGH: [u8; 4] = *b"high";

pub const NONE: [u8; 4] = *b"none";
