// The room of the longest text that a program takes or writes.

// The room as a list. Where it is borrowed its length stands in its type, and need not be counted from its zeros.
pub fn room(text: &mut [u8; 524288]) -> &mut [u8] {
    text
}
