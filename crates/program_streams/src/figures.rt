// Numbers as a stream shows them, in lists that hold the longest.
ghost use Rattle.std.specs.Prelude.{◌≤◌};

// A number in decimal, in the beginning of the list; how many bytes it has.
pub fn decimal(n: u64, text: &mut [u8; 20]) -> usize
    ensures { result ≤ 20 }
{
    text::put_number(n, 0, text)
}

// How many hexadecimal digits a number has.
fn hex_count(n: u64) -> usize
    ensures { result ≤ 16 }
{
    match n.checked_ilog2() {
        Some(highest) => highest as usize / 4 + 1,
        None => 1,
    }
}

// A digit's byte, a small letter from ten on.
fn hex_digit(d: u64) -> u8 {
    b"0123456789abcdef"[(d % 16) as usize]
}

// A number in so many hexadecimal digits, zeros before it, in the beginning of the list; how many bytes it has. It has as many as it needs where
// those are more, and 16 at most.
pub fn hex(n: u64, places: usize, text: &mut [u8; 16]) -> usize
    ensures { result ≤ 16 }
{
    let count = places.clamp(hex_count(n), 16);
    let mut rest = n;
    for place in text[..count].iter_mut().rev() {
        *place = hex_digit(rest);
        rest /= 16;
    }
    count
}
