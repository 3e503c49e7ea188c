// Lists of a line, and lists that are lent.
ghost use Rattle.std.specs.Prelude.{◌≡◌, ◌≤◌, length};

use crate::element::Element;
use crate::numbers;

// An empty list, or an empty text.
const EMPTY: &[u8] = b"-";

// Whether the word is a list: elements joined by commas, or `-` for none.
pub(crate) fn is_list<T: Element>(word: &[u8]) -> bool {
    word == EMPTY
        || word
            .split(|b| *b == b',')
            .all(|part| T::read(part).is_some())
}

// The elements of such a word in the beginning of the room: how many.
pub(crate) fn read<T: Element>(word: &[u8], room: &mut [T]) -> usize
    ensures { result ≤ length room.old }
{
    let most = room.len();
    if word == EMPTY {
        return 0;
    }
    let mut parts = word.split(|b| *b == b',');
    for (n, place) in room.iter_mut().enumerate() {
        let Some(part) = parts.next() else {
            return n;
        };
        *place = T::read(part).unwrap_or(T::from(0));
    }
    most
}

// What a list that is lent holds before a call.
pub(crate) fn fill<T: Element>(list: &mut [T])
    ensures { length list.new ≡ length list.old }
{
    for (i, place) in list.iter_mut().enumerate() {
        *place = T::from(((7 * (i % 251) + 3) % 251) as u8);
    }
}

// Whether the word is a text: pairs of hexadecimal digits, or `-` for none.
pub(crate) fn is_text(word: &[u8]) -> bool {
    word == EMPTY || !word.is_empty() && word.chunks(2).all(|pair| numbers::byte(pair).is_some())
}

// The bytes of such a word in the beginning of the room: how many.
pub(crate) fn read_text(word: &[u8], room: &mut [u8]) -> usize
    ensures { result ≤ length room.old }
{
    let n = room.len().min(word.len() / 2);
    for (place, pair) in room[..n].iter_mut().zip(word.chunks_exact(2)) {
        *place = numbers::byte(pair).unwrap_or(0);
    }
    n
}
