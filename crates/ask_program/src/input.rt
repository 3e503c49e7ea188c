// Standard input, line by line, in a buffer.
use std::io::Read;

// What a step came to. A line that did not fit into the buffer was forgotten as it was read.
#[derive(Clone, Copy)]
pub(crate) enum Step {
    // the bytes from .. to of the buffer are a line to be answered
    Line { from: usize, to: usize },
    TooLong,
    More,
    End,
}

// The bytes at .. end are read and not yet answered; behind a beginning that was forgotten, where the line is `long`. `done`: the input has ended.
#[derive(Drop)]
pub(crate) struct Input<'a> {
    rt: HostRuntime,
    buffer: &'a mut [u8],
    at: usize,
    end: usize,
    long: bool,
    done: bool,
}

impl<'a> Input<'a> {
    // Before anything is read.
    pub(crate) fn new(rt: HostRuntime, buffer: &'a mut [u8]) -> Input<'a> {
        Input {
            rt,
            buffer,
            at: 0,
            end: 0,
            long: false,
            done: false,
        }
    }

    // The next line, or one more read.
    pub(crate) fn step(&mut self) -> Step {
        if self.done {
            return Step::End;
        }
        if let Some(n) = self.newline() {
            let from = self.at;
            let to = from.saturating_add(n);
            self.at = to.saturating_add(1);
            return self.line(from, to);
        }
        if self.refill() {
            return Step::More;
        }
        // The last line needs no newline.
        self.done = true;
        if self.end == 0 && !self.long {
            return Step::End;
        }
        self.line(0, self.end)
    }

    // The bytes from .. to of the buffer.
    pub(crate) fn bytes(&self, from: usize, to: usize) -> &[u8] {
        self.buffer.get(from..to).unwrap_or(&[])
    }

    // How many bytes are before the next newline, where one has been read.
    fn newline(&self) -> Option<usize> {
        self.bytes(self.at, self.end)
            .iter()
            .position(|b| *b == b'\n')
    }

    // A line, or what is left of one that did not fit.
    fn line(&mut self, from: usize, to: usize) -> Step {
        if self.long {
            self.long = false;
            return Step::TooLong;
        }
        Step::Line { from, to }
    }

    // Moves what is left to the front and reads behind it; whether there was more. A buffer full of one line is forgotten, and the line is `long`.
    fn refill(&mut self) -> bool {
        if self.at == 0 && self.end == self.buffer.len() {
            self.end = 0;
            self.long = true;
            return true;
        }
        let end = self.end.min(self.buffer.len());
        let at = self.at.min(end);
        // What is left alone is moved: little, or nothing, where the input comes a line at a time.
        self.buffer.copy_within(at..end, 0);
        self.end = end - at;
        self.at = 0;
        let Some(room) = self.buffer.get_mut(self.end..) else {
            return false;
        };
        let n = self.rt.stdin().read(room).unwrap_or(0);
        self.end = self.end.saturating_add(n);
        0 < n
    }
}
