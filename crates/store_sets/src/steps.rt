// The two steps to a set: built in the lists lent for that, then stored as integers.
ghost use Rattle.std.specs.Prelude.{◌≡◌, ◌*◌, ◌≤◌, length, take};
ghost use Rattle.windows.specs.Set.{layout_of, set_of};
ghost use Rattle.windows.specs.Store.{store32};
ghost use Rattle.coefficients.specs.Request.{built_of, weights_of, starts_of, sizes_of};
ghost use Rattle.normalizer.specs.Answer.{normalized_of, written_of, excesses_of};
ghost use Rattle.made_sets.specs.Lent.{side_of, lent_by};

use coefficients::{NotBuilt, build};
use normalizer::normalize32;
use plans::{Axis, Request};
use refusal::Refusal;

// The side along the axis.
pub fn side_of(request: Request) -> u32
    ensures answer { result ≡ side_of request }
{
    let axis = request.axis;
    match axis {
        Axis::Across => request.width,
        Axis::Down => request.height,
    }
}

// The builder's answer: the size of the windows, still without a precision, or why there is no set. It stands apart, so that what becomes of a blank window is judged by
// itself.
fn staged(answer: Result<u32, NotBuilt>) -> Result<u32, NotBuilt>
    ensures answer { result ≡ answer }
{
    match answer {
        Ok(window) => Ok(window),
        Err(NotBuilt::Blank(line)) => Err(NotBuilt::Blank(line)),
        Err(NotBuilt::Refused(refusal)) => Err(NotBuilt::Refused(refusal)),
    }
}

// The set of a request in the first `room` doubles and the first 8,192 places of the other two lists.
pub(crate) fn build_in(
    request: Request,
    room: usize,
    doubles: &mut [f64],
    firsts: &mut [u32],
    counts: &mut [u32],
) -> Result<u32, NotBuilt>
    requires fact_1 { room ≤ length doubles.old }
    requires fact_2 { 8192 ≤ length firsts.old }
    requires fact_3 { 8192 ≤ length counts.old }
    ensures answer { result ≡ built_of request room 8192 8192 }
    ensures written { doubles.new ≡ lent_by room (weights_of request room 8192 8192) doubles.old }
    ensures written2 { firsts.new ≡ lent_by 8192 (starts_of request room 8192 8192) firsts.old }
    ensures written3 { counts.new ≡ lent_by 8192 (sizes_of request room 8192 8192) counts.old }
{
    let built = build(
        request,
        &mut doubles[0..room],
        &mut firsts[0..8192],
        &mut counts[0..8192],
    );
    staged(built)
}

// The beginnings of three lists as a set in the 32-bit store: n windows of size w.
pub(crate) fn normal(
    lines: u32,
    w: u32,
    n: u32,
    part: &mut [i32],
    excesses: &mut [i64],
    doubles: &[f64],
    firsts: &[u32],
    counts: &[u32],
) -> Result<u32, Refusal>
    requires fact_1 { n * w ≤ length doubles.now }
    requires fact_2 { n ≤ length firsts.now }
    requires fact_3 { n ≤ length counts.now }
    ensures answer { result ≡ normalized_of store32 (set_of (layout_of lines w (take n firsts.now) (take n counts.now)) (take (n * w) doubles.now)) (length part.old) (length excesses.old) }
    ensures written { part.new ≡ written_of store32 (set_of (layout_of lines w (take n firsts.now) (take n counts.now)) (take (n * w) doubles.now)) (length excesses.old) part.old }
    ensures written2 { excesses.new ≡ excesses_of store32 (set_of (layout_of lines w (take n firsts.now) (take n counts.now)) (take (n * w) doubles.now)) (length part.old) excesses.old }
{
    let k = n as usize;
    let m = k * (w as usize);
    normalize32(
        lines,
        w,
        &doubles[0..m],
        &firsts[0..k],
        &counts[0..k],
        part,
        excesses,
    )
}
