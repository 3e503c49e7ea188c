// The words of a line, cut at each space, or those of one of its words, cut at another byte.
ghost use Rattle.std.specs.Prelude.{◌≤◌, IfOk, length};

use crate::element::Element;
use crate::fault::{Fault, Kind, Reason};
use crate::{elements, numbers};

// The longest list that is lent.
const LONGEST: usize = 131072;

// The largest room of a sheet or a story.
const LARGEST: usize = 524288;

// The words that are left: their part of the line, none behind its last word. `number` is that of the word before them.
#[derive(Clone, Copy)]
pub struct Words<'a> {
    separator: u8,
    left: Option<&'a [u8]>,
    number: usize,
}

impl<'a> Words<'a> {
    // All words of a line.
    pub fn new(line: &'a [u8]) -> Words<'a> {
        Words::cut(line, b' ')
    }

    // All words of a part of a line.
    pub fn cut(part: &'a [u8], separator: u8) -> Words<'a> {
        Words {
            separator,
            left: Some(part),
            number: 0,
        }
    }

    // The next word.
    pub fn word(&mut self) -> Result<&'a [u8], Fault> {
        self.number = self.number.saturating_add(1);
        let Some(left) = self.left else {
            return Err(self.fault(Reason::TooFew));
        };
        let separator = self.separator;
        let mut parts = left.splitn(2, |b| *b == separator);
        let word = parts.next().unwrap_or(left);
        self.left = parts.next();
        Ok(word)
    }

    // The next word, where it is a list of such elements.
    fn list_word<T: Element>(&mut self) -> Result<&'a [u8], Fault> {
        let word = self.word()?;
        if !elements::is_list::<T>(word) {
            return Err(self.not(T::KIND));
        }
        Ok(word)
    }

    // What is wrong with the word that was read last.
    pub fn fault(&self, reason: Reason) -> Fault {
        Fault {
            word: self.number,
            reason,
        }
    }

    // That it is not of the kind.
    pub fn not(&self, kind: Kind) -> Fault {
        self.fault(Reason::Not(kind))
    }

    // The next word as a number of the type.
    pub fn number<T: Element>(&mut self) -> Result<T, Fault> {
        let word = self.word()?;
        T::read(word).ok_or(self.not(T::KIND))
    }

    // The next word as 1 or 0.
    pub fn flag(&mut self) -> Result<bool, Fault> {
        match self.word()? {
            [b'0'] => Ok(false),
            [b'1'] => Ok(true),
            _ => Err(self.not(Kind::Flag)),
        }
    }

    // The next word as the pattern of a double.
    pub fn pattern(&mut self) -> Result<u64, Fault> {
        numbers::pattern(self.word()?).ok_or(self.not(Kind::F64))
    }

    // The next word as the pattern of a single.
    pub fn pattern32(&mut self) -> Result<u32, Fault> {
        numbers::pattern32(self.word()?).ok_or(self.not(Kind::F32))
    }

    // The next word as a list, in the beginning of the room.
    pub fn list<'r, T: Element>(&mut self, room: &'r mut [T]) -> Result<&'r mut [T], Fault>
        ensures { IfOk result (λ list. length list.now ≤ length room.old) }
    {
        let word = self.list_word::<T>()?;
        let n = elements::read(word, room);
        Ok(&mut room[..n])
    }

    // That the next word is a list of such elements.
    pub fn seen<T: Element>(&mut self) -> Result<(), Fault> {
        self.list_word::<T>()?;
        Ok(())
    }

    // The next word, which has been `seen` to be a list, in the beginning of the room.
    pub fn taken<'r, T: Element>(&mut self, room: &'r mut [T]) -> Result<&'r mut [T], Fault>
        ensures { IfOk result (λ list. length list.now ≤ length room.old) }
    {
        let word = self.word()?;
        let n = elements::read(word, room);
        Ok(&mut room[..n])
    }

    // The next word as a text, in the beginning of the room.
    pub fn text<'r>(&mut self, room: &'r mut [u8]) -> Result<&'r mut [u8], Fault>
        ensures { IfOk result (λ list. length list.now ≤ length room.old) }
    {
        let word = self.word()?;
        if !elements::is_text(word) {
            return Err(self.not(Kind::Text));
        }
        let n = elements::read_text(word, room);
        Ok(&mut room[..n])
    }

    // The next word as a list's length.
    pub fn length(&mut self) -> Result<usize, Fault> {
        let word = self.word()?;
        numbers::at_most(LONGEST, word).ok_or(self.not(Kind::Length))
    }

    // A list of the length that the next word is, as it is lent.
    pub fn lent<'r, T: Element>(&mut self, room: &'r mut [T]) -> Result<&'r mut [T], Fault>
        ensures { IfOk result (λ list. length list.now ≤ length room.old) }
    {
        Ok(lent(self.length()?, room))
    }

    // The room for a sheet or a story, of the size that the next word is, as it is lent.
    pub fn room<'r>(&mut self, room: &'r mut [u8]) -> Result<&'r mut [u8], Fault>
        ensures { IfOk result (λ list. length list.now ≤ length room.old) }
    {
        let word = self.word()?;
        let n = numbers::at_most(LARGEST, word).ok_or(self.not(Kind::Room))?;
        Ok(lent(n, room))
    }

    // That no word is left.
    pub fn end(&mut self) -> Result<(), Fault> {
        match self.word() {
            Ok(_) => Err(self.fault(Reason::TooMany)),
            Err(_) => Ok(()),
        }
    }
}

// So many places of the room, or all of it, as they are lent.
fn lent<T: Element>(n: usize, room: &mut [T]) -> &mut [T]
    ensures { length result.now ≤ length room.old }
{
    let most = room.len();
    let list = &mut room[..n.min(most)];
    elements::fill(list);
    list
}
