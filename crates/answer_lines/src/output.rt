// Answers in a buffer, which is written out whenever it is full.
use crate::show::Show;
use request_fields::Fault;
use std::fmt::{self, Write};

// The first bytes of the buffer, as many as are filled, are still to be written out.
#[derive(Drop)]
pub struct Output<'a> {
    rt: HostRuntime,
    buffer: &'a mut [u8],
    filled: usize,
}

impl<'a> Output<'a> {
    // Nothing yet.
    pub fn new(rt: HostRuntime, buffer: &'a mut [u8]) -> Output<'a> {
        Output {
            rt,
            buffer,
            filled: 0,
        }
    }

    // Writes out what is in the buffer, and says so on standard error where that fails: a program has no status of its own.
    pub fn flush(&mut self) {
        let n = self.filled.min(self.buffer.len());
        if !program_streams::written(&mut self.rt.stdout(), &self.buffer[..n]) {
            program_streams::err(self.rt, b"ask: the output could not be written\n");
        }
        self.filled = 0;
    }

    // One byte.
    pub fn byte(&mut self, b: u8) {
        if self.buffer.len() <= self.filled {
            self.flush();
        }
        if self.filled < self.buffer.len() {
            self.buffer[self.filled] = b;
            self.filled += 1;
        }
    }

    // A word.
    pub fn word(&mut self, word: &[u8]) {
        for b in word {
            self.byte(*b);
        }
    }

    // A number.
    pub fn show<T: Show>(&mut self, x: T) {
        x.show(self);
    }

    // A space and a number.
    pub fn next<T: Show>(&mut self, x: T) {
        self.byte(b' ');
        x.show(self);
    }

    // A pattern in so many hexadecimal digits.
    pub fn hex(&mut self, pattern: u64, digits: usize) {
        let _ = write!(self, "{pattern:0digits$x}");
    }

    // The numbers joined by commas, `-` where there are none.
    pub fn list<T: Show>(&mut self, list: &[T]) {
        if list.is_empty() {
            self.byte(b'-');
        }
        for (k, x) in list.iter().enumerate() {
            if 0 < k {
                self.byte(b',');
            }
            x.show(self);
        }
    }

    // The bytes as two hexadecimal digits each, `-` where there are none.
    pub fn text(&mut self, bytes: &[u8]) {
        if bytes.is_empty() {
            self.byte(b'-');
        }
        for b in bytes {
            self.byte(digit(*b / 16));
            self.byte(digit(*b % 16));
        }
    }

    // What is said of a line that is no request.
    pub fn bad(&mut self, fault: Fault) {
        let _ = write!(self, "bad {} {}", fault.word, fault.reason);
    }
}

// A hexadecimal digit. `write!` with `{:02x}` takes twice the time over a large room.
fn digit(n: u8) -> u8 {
    match n {
        0..=9 => b'0' + n,
        _ => b'a' - 10 + n % 16,
    }
}

impl Write for Output<'_> {
    fn write_str(&mut self, s: &str) -> fmt::Result {
        self.word(s.as_bytes());
        Ok(())
    }
}
