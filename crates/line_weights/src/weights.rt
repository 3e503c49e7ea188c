// The weights of one window: leading zeros dropped, the rest weighed and totalled in line order, trailing zeros dropped from the size, division
// by the total and zero filling.
ghost use Rattle.std.specs.Prelude.{◌≡◌, ◌+◌, ◌-◌, ◌≤◌, ◌<◌, ◌^◌, length};
ghost use Rattle.lists.specs.Tab.{tab, front};
ghost use Rattle.line_weights.specs.Weights.{line_weight_value, lead_of, first_weight, weight_from, total_of, up_to, share_of};
ghost use Rattle.line_weights.specs.Weights.{weighty, share_at};

use crate::Weighed;
use filters::Filter;
use windows::CameraLine;

// The weight of the camera line x, before the division; c is the centre less 0.5.
fn line_weight(f: Filter, c: f64, recip: f64, x: CameraLine) -> f64
    ensures answer { result ≡ line_weight_value f c recip x.0 }
{
    filters::value(f, (x.0 as f64 - c) * recip)
}

// The first line of the range whose weight is not 0, or its end: leading zeros are dropped. Its weight goes with it, so that `weigh` need not work it out.
pub fn lead(f: Filter, c: f64, recip: f64, start: CameraLine, stop: CameraLine) -> Weighed
    ensures answer { (result.line.0 ≡ lead_of f c recip start.0 stop.0) × (result.weight ≡ first_weight f c recip result.line.0 (stop.0 - result.line.0)) }
{
    for x in start.0..stop.0 {
        let w = line_weight(f, c, recip, CameraLine(x));
        if !(w == 0.0) {
            return Weighed {
                line: CameraLine(x),
                weight: w,
            };
        }
    }
    Weighed {
        line: CameraLine(start.0.max(stop.0)),
        weight: 0.0,
    }
}

// The weights of n lines from the line a on, the first of them known, into the first n slots; their total, in line order from +0.
pub fn weigh(f: Filter, c: f64, recip: f64, a: Weighed, n: usize, row: &mut [f64]) -> f64
    requires { (n ≤ length row.old) × (a.line.0 + n < 2 ^ 32) × (a.weight ≡ first_weight f c recip a.line.0 n) }
    ensures answer { result ≡ total_of f c recip a.line.0 n }
    ensures written { row.new ≡ front n (weight_from f c recip a.line.0) row.old }
{
    if n == 0 {
        return 0.0;
    }
    row[0] = a.weight;
    let mut total = 0.0 + a.weight;
    for k in 1..n {
        let w = line_weight(f, c, recip, CameraLine(a.line.0 + k as u32));
        row[k] = w;
        total = total + w;
    }
    total
}

// How many of the first n slots are left once the trailing zeros are dropped.
pub fn trim(n: usize, row: &[f64]) -> usize
    requires { n ≤ length row.now }
    ensures answer { result ≡ up_to (weighty row.now) n }
{
    // counted down by hand: `for k in (1..=n).rev()` reads the same slot k - 1 and is no plainer
    let mut k = n;
    while 0 < k {
        let j = k - 1;
        if !(row[j] == 0.0) {
            return k;
        }
        k = j;
    }
    0
}

// What the slot k holds at the end: its weight's share of the total, or 0 past the n weights.
fn share(n: usize, total: f64, k: usize, w: f64) -> f64
    ensures answer { result ≡ share_of n total k w }
{
    if k < n {
        return w / total;
    }
    0.0
}

// The first n slots divided by the total, the rest 0.
pub fn finish(n: usize, total: f64, row: &mut [f64])
    ensures written { row.new ≡ tab 0 (length row.old) (share_at n total row.old) }
{
    for k in 0..row.len() {
        row[k] = share(n, total, k, row[k]);
    }
}
