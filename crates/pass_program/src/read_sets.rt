// The sheet of a pass, of a store that the pass takes, and the pass that is asked for with it.
use crate::plan::Plan;
use crate::said::Ended;
use crate::samples::Sample;
use crate::{plan, said};
use frame_files::times;
use reader::Unread;
use sheet_scan::Sizes;
use std::fs::File;
use std::io;

// A set in four lists.
#[derive(Clone, Copy)]
pub(crate) struct Set<'a, W> {
    pub(crate) weights: &'a [W],
    pub(crate) starts: &'a [u32],
    pub(crate) sizes: &'a [u32],
    pub(crate) excesses: &'a [i64],
}

impl<'a, W> Set<'a, W> {
    // The beginnings that a set of so many windows of such a size has, if the lists are as long.
    fn cut(self, windows: u32, window_size: u32) -> Option<Set<'a, W>> {
        let n = windows as usize;
        Some(Set {
            weights: self.weights.get(..times(windows, window_size))?,
            starts: self.starts.get(..n)?,
            sizes: self.sizes.get(..n)?,
            excesses: self.excesses.get(..n)?,
        })
    }
}

// The lists of `read` that are alike for both passes, and nothing else: one call. They are as long as those of `read_back`.
pub(crate) fn judge<
    S: Sample,
    F: FnOnce(HostRuntime, Plan<'_>, Set<'_, S::Weight>) -> Result<(), Ended>,
>(rt: HostRuntime, to: &io::Result<File>, text: &[u8], weights: &mut [S::Weight], pass: F)
    requires { F.IsAlwaysCallable pass }
{
    let mut starts = [0u32; 8192];
    let mut sizes = [0u32; 8192];
    let mut excesses = [0i64; 8192];
    read::<S, F>(
        rt,
        to,
        text,
        weights,
        &mut starts,
        &mut sizes,
        &mut excesses,
        pass,
    );
}

// The sheet, read, and the pass that is asked for with it.
fn read<S: Sample, F: FnOnce(HostRuntime, Plan<'_>, Set<'_, S::Weight>) -> Result<(), Ended>>(
    rt: HostRuntime,
    to: &io::Result<File>,
    text: &[u8],
    weights: &mut [S::Weight],
    starts: &mut [u32],
    sizes: &mut [u32],
    excesses: &mut [i64],
    pass: F,
)
    requires { F.IsAlwaysCallable pass }
{
    let answer = S::read_sheet(text, weights, starts, sizes, excesses);
    match answer {
        Ok((head, store)) => {
            let set = Set {
                weights,
                starts,
                sizes,
                excesses,
            };
            framed::<S, F>(rt, to, head, store.precision, set, pass);
        }
        Err(Unread::TooFew) => sheet_files::too_large(rt),
        Err(Unread::NotASheet(byte)) => sheet_files::refused(rt, text, byte),
    }
}

// The frame's file, opened, and the pass over it.
fn framed<S: Sample, F: FnOnce(HostRuntime, Plan<'_>, Set<'_, S::Weight>) -> Result<(), Ended>>(
    rt: HostRuntime,
    to: &io::Result<File>,
    head: Sizes,
    precision: u32,
    set: Set<'_, S::Weight>,
    pass: F,
)
    requires { F.IsAlwaysCallable pass }
{
    let Some(file) = frame_files::opened(rt, 2) else {
        return frame_files::no_frame(rt);
    };
    let Some(p) = plan::asked(rt, &file, to, head, precision, S::WIDE) else {
        return;
    };
    if let Some(own) = set.cut(p.windows, p.window_size) {
        if let Err(why) = pass(rt, p, own) {
            said::told(rt, why);
        }
    }
}
