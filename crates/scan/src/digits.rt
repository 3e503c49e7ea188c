// Numbers in decimal, from `low` to `high`, with the byte that ends them.
ghost use Rattle.std.specs.Prelude.{◌≡◌, ◌+◌, ◌*◌, ◌^◌, ◌≤◌, ◌<◌, length};
ghost use Rattle.text.specs.Text.{digit_count_value};
ghost use Rattle.scan.specs.Number.{numbers, GoesOn, NextDigit, NoDigit};
ghost use Rattle.scan.specs.Answer.{Tells, Scans};

// Whether some number from low to high begins with the digits of n, n itself among them.
fn goes_on(low: u64, high: u64, n: u64) -> bool
    requires { (low ≤ high) × (high < 2 ^ 56) × (1 ≤ n) × (n < 2 ^ 60) }
    ensures answer { Tells (GoesOn low high (digit_count_value n) n) result }
{
    let mut least = n;
    let mut past = n + 1;
    // A `while`: the least number of one digit more is ten times as large, and no range has such steps.
    while least <= high {
        if low < past {
            return true;
        }
        least = least * 10;
        past = past * 10;
    }
    false
}

// Whether the byte is a digit, and some number from low to high begins with it after `count` digits that read n.
fn digit_goes_on(low: u64, high: u64, count: usize, n: u64, b: u8) -> bool
    requires { (low ≤ high) × (high < 2 ^ 56) × GoesOn low high count n }
    ensures answer { Tells (NextDigit low high count n b) result }
{
    if b < 48 {
        return false;
    }
    if 57 < b {
        return false;
    }
    let d = (b - 48) as u64;
    if 0 < n {
        return goes_on(low, high, n * 10 + d);
    }
    if 0 < count {
        return false;
    }
    if d == 0 {
        return low == 0;
    }
    goes_on(low, high, d)
}

// The number from low to high at a place of the text, with the byte that ends it.
pub fn take_number(
    low: u64,
    high: u64,
    end: u8,
    text: &[u8],
    at: usize,
) -> Result<(u64, usize), usize>
    requires { (low ≤ high) × (high < 2 ^ 56) × NoDigit end × (at ≤ length text.now) }
    ensures answer { Scans (numbers low high end) text.now at result }
{
    let mut n: u64 = 0;
    for p in at..text.len() {
        let b = text[p];
        if b == end {
            if (at < p) & (low <= n) {
                return Ok((n, p + 1));
            }
            return Err(p);
        }
        if !digit_goes_on(low, high, p - at, n, b) {
            return Err(p);
        }
        n = n * 10 + (b - 48) as u64;
    }
    Err(text.len())
}
