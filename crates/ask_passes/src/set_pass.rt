// A pass over samples of integers, whatever their type and that of the weights.
use answer_lines::{Output, Show};
use refusal::Numbered;
use request_fields::{Element, Fault, Words};

// A set of weights: WINDOW PRECISION WEIGHTS STARTS SIZES EXCESSES.
#[derive(Clone, Copy)]
pub struct Set<'r, W> {
    pub window: u32,
    pub precision: u32,
    pub weights: &'r [W],
    pub starts: &'r [u32],
    pub sizes: &'r [u32],
    pub excesses: &'r [i64],
}

// Behind the frame a set, then SAMPLES and NOUT: the pass's number and the output. The first three lists are room for the weights, the samples and the output.
pub fn pass<W: Element, S: Element + Show, F: FnOnce(Set<'_, W>, &[S], &mut [S]) -> u32>(
    mut words: Words<'_>,
    weights: &mut [W],
    samples: &mut [S],
    lent: &mut [S],
    out: &mut Output<'_>,
    convolution: F,
) -> Result<bool, Fault>
    requires { F.IsAlwaysCallable convolution }
{
    let mut starts = [0u32; 131072];
    let mut sizes = [0u32; 131072];
    let mut excesses = [0i64; 131072];
    let set = Set {
        window: words.number()?,
        precision: words.number()?,
        weights: words.list(weights)?,
        starts: words.list(&mut starts)?,
        sizes: words.list(&mut sizes)?,
        excesses: words.list(&mut excesses)?,
    };
    let samples = words.list(samples)?;
    let lent = words.lent(lent)?;
    words.end()?;
    out.show(convolution(set, samples, lent));
    out.byte(b' ');
    out.list(lent);
    Ok(true)
}
