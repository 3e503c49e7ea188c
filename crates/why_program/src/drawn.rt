// The window on a terminal, where the fifth argument asks for it.
use crate::bars::bars;
use crate::set_lists::Lists;
use crate::told::Asked;
use frame_files::times;

// Whether the window is to be drawn: the fifth argument is `draw`.
fn wanted(rt: HostRuntime) -> bool {
    let mut room = [0u8; 8];
    program_streams::argument(rt, 5, &mut room) == b"draw".as_slice()
}

// So many of a list from a place on.
fn part<T>(list: &[T], from: usize, n: u32) -> Option<&[T]> {
    list.get(from..)?.get(..n as usize)
}

// The window of the display line, where the lists have it.
fn drawn(rt: HostRuntime, q: Asked, samples: &[u16], lists: Lists<'_>) -> Option<()> {
    let i = q.line as usize;
    let start = *lists.starts.get(i)?;
    let size = *lists.sizes.get(i)?;
    let weights = part(lists.weights, times(q.line, q.window_size), size)?;
    let samples = part(samples, start as usize, size)?;
    bars(rt, start, weights, samples);
    Some(())
}

// The window of the display line, if it is asked for.
pub(crate) fn window(rt: HostRuntime, q: Asked, samples: &[u16], lists: Lists<'_>) {
    if wanted(rt) {
        let _ = drawn(rt, q, samples, lists);
    }
}
