// A line for each camera line of a window: its number, a bar as long as its weight is large, left of zero where the weight is negative, and its sample.
ghost use Rattle.std.specs.Prelude.{◌≤◌};

// The longest bar.
const LONGEST: usize = 30;

// How long the bar of a weight is beside the largest: none for 0, else at least 1.
fn bar(weight: u32, most: u32) -> usize
    ensures { result ≤ 30 }
{
    if most <= weight {
        return if weight == 0 { 0 } else { LONGEST };
    }
    let part = (weight as u64 * LONGEST as u64).div_ceil(most as u64);
    LONGEST.min(part as usize)
}

// A line for each camera line from `first` on.
pub(crate) fn bars(rt: HostRuntime, first: u32, weights: &[i32], samples: &[u16]) {
    let most = weights.iter().map(|w| w.unsigned_abs()).max().unwrap_or(0);
    for (k, (weight, sample)) in weights.iter().zip(samples).enumerate() {
        drawn(
            rt,
            (first as u64).saturating_add(k as u64),
            *weight,
            *sample,
            most,
        );
    }
}

// One line.
fn drawn(rt: HostRuntime, line: u64, weight: i32, sample: u16, most: u32) {
    let n = bar(weight.unsigned_abs(), most);
    let (left, right) = if weight < 0 { (n, 0) } else { (0, n) };
    let (before, behind) = (LONGEST - left, LONGEST - right);
    let _ = print!(rt; "{line:>4} {:before$}{:#>left$}|", "", "");
    let _ = println!(rt; "{:#>right$}{:behind$} {sample:>5}", "", "");
}
