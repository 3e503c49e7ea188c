// The pass, strip by strip.
use crate::plan::Plan;
use crate::read_sets::Set;
use crate::said;
use crate::said::Ended;
use crate::samples::Sample;
use frame_files::times;

// One strip after the other, until the last or until one fails.
pub(crate) fn strips<S: Sample>(
    rt: HostRuntime,
    p: Plan<'_>,
    set: Set<'_, S::Weight>,
    bytes: &mut [u8],
    samples: &mut [S],
    out: &mut [S],
) -> Result<(), Ended> {
    let mut at: u32 = 0;
    said::progress(rt, at, p.count);
    // A `while`: the last strip is shorter than the others, and each turn goes on by as many columns as its own has.
    while at < p.count {
        let n = p.next(at);
        if n == 0 {
            return Ok(());
        }
        strip(rt, p, at, n, set, bytes, samples, out)?;
        at += n;
        said::progress(rt, at, p.count);
    }
    Ok(())
}

// One strip, read, passed and written.
fn strip<S: Sample>(
    rt: HostRuntime,
    p: Plan<'_>,
    at: u32,
    n: u32,
    set: Set<'_, S::Weight>,
    bytes: &mut [u8],
    samples: &mut [S],
    out: &mut [S],
) -> Result<(), Ended> {
    let taken = times(p.lines, n);
    let given = times(p.windows, n);
    if samples.len() < taken || out.len() < given {
        return Err(Ended::Frame);
    }
    S::fetch(p.file, p.taken(at, n), bytes, &mut samples[..taken])?;
    let answer = S::pass(
        &samples[..taken],
        p.frame(n),
        set.weights,
        set.starts,
        set.sizes,
        set.excesses,
        p.window_size,
        p.precision,
        &mut out[..given],
    );
    match answer {
        Ok(()) => {}
        Err(refusal) => return Err(Ended::Pass(refusal)),
    }
    S::store(rt, p.to, p.given(at, n), &out[..given], bytes)
}
