// The story of a place, printed, of the set's own part of each list; and the window drawn where that is asked for.
use crate::told::Asked;
use crate::{drawn, said};
use frame_files::times;
use program_streams::out;
use windows::DisplayLine;

// A set in four lists.
#[derive(Clone, Copy)]
pub(crate) struct Lists<'a> {
    pub(crate) weights: &'a [i32],
    pub(crate) starts: &'a [u32],
    pub(crate) sizes: &'a [u32],
    pub(crate) excesses: &'a [i64],
}

impl<'a> Lists<'a> {
    // The beginnings that a set of so many windows of such a size has, if the lists are as long.
    fn cut(self, windows: u32, window_size: u32) -> Option<Lists<'a>> {
        let n = windows as usize;
        Some(Lists {
            weights: self.weights.get(..times(windows, window_size))?,
            starts: self.starts.get(..n)?,
            sizes: self.sizes.get(..n)?,
            excesses: self.excesses.get(..n)?,
        })
    }
}

// The set's own part of each list, and the story.
pub(crate) fn listed(rt: HostRuntime, q: Asked, at: u32, samples: &[u16], lists: Lists<'_>) {
    if let Some(set) = lists.cut(q.windows, q.window_size) {
        tell(rt, q, at, samples, set);
    }
}

// The story, and where it is none, why. The longest has 8,192 lines of 45 bytes and some more.
fn tell(rt: HostRuntime, q: Asked, at: u32, samples: &[u16], set: Lists<'_>) {
    let mut list = [0u8; 524288];
    let text = sheet_files::room(&mut list);
    let answer = story::story(
        samples,
        q.lines,
        1,
        set.weights,
        set.starts,
        set.sizes,
        set.excesses,
        q.window_size,
        q.precision,
        DisplayLine(q.line),
        at,
        text,
    );
    match answer {
        Ok(length) => {
            show(rt, text, length);
            drawn::window(rt, q, samples, set);
        }
        Err(refusal) => said::refused(rt, refusal, q),
    }
}

// The text's first bytes.
fn show(rt: HostRuntime, text: &[u8], length: u64) {
    if let Some(story) = text.get(..length as usize) {
        out(rt, story);
    }
}
