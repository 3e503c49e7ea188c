// The set as integers of a store, and the sheet of it, printed.
use crate::making::Set;
use crate::refused::refused;
use crate::{Asked, limits};
use filters::FilterType;
use program_streams::out;
use refusal::Refusal;

// The set in the store, and its sheet, by the normaliser and the writer of the store.
pub(crate) fn sheet<
    W,
    N: FnOnce(u32, u32, &[f64], &[u32], &[u32], &mut [W], &mut [i64]) -> Result<u32, Refusal>,
    S: FnOnce(
        FilterType,
        u32,
        u32,
        u32,
        &[W],
        &[u32],
        &[u32],
        &[i64],
        &mut [u8],
    ) -> Result<u64, Refusal>,
>(rt: HostRuntime, asked: Asked, set: Set<'_>, store: &mut [W], normalize: N, write: S)
    requires normal { N.IsAlwaysCallable normalize }
    requires writer { S.IsAlwaysCallable write }
{
    let mut excesses = [0i64; 8192];
    let mut text = [0u8; 524288];
    let normalized = normalize(
        asked.side,
        set.window,
        set.weights,
        set.starts,
        set.sizes,
        store,
        &mut excesses,
    );
    let precision = match normalized {
        Ok(precision) => precision,
        Err(refusal) => return refused(rt, refusal, asked),
    };
    let n = set.weights.len();
    let m = set.starts.len();
    if store.len() < n || 8192 < m {
        return limits::slots(rt);
    }
    let written = write(
        asked.filter,
        asked.side,
        set.window,
        precision,
        &store[..n],
        set.starts,
        set.sizes,
        &excesses[..m],
        program_streams::room(&mut text),
    );
    show(rt, asked, written, &text);
}

// Prints the text that was written.
fn show(rt: HostRuntime, asked: Asked, written: Result<u64, Refusal>, text: &[u8]) {
    match written {
        Ok(length) => print_text(rt, length, text),
        Err(refusal) => refused(rt, refusal, asked),
    }
}

// The first bytes of the list, which are the text.
fn print_text(rt: HostRuntime, length: u64, text: &[u8]) {
    if let Some(written) = text.get(..length as usize) {
        out(rt, written);
    }
}
