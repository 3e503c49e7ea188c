// The sums of one column, and of sixteen columns side by side, each in line order: binary64 addition gives other bits in another order.
ghost use Rattle.std.specs.Prelude.{◌≡◌, not, ℕ, ◌+◌, ◌<◌, ◌≤◌, T, length, get_or};
ghost use Rattle.std.specs.Float.{binary64, nan};
ghost use Rattle.std.specs.Float.Ieee.{add, mul, is_nan};
ghost use Rattle.row_f32.specs.Column.{column_sum, Summable, Sums16};

fn widen(x: f32) -> f64
    requires { T (not (is_nan x)) }
    ensures { result ≡ x }
{
    x as f64
}

// One sample times one weight, added.
fn step(acc: f64, w: f64, s: f32) -> f64
    requires { T (not (is_nan s)) }
    ensures { result ≡ add binary64 acc (mul binary64 s w) }
{
    acc + widen(s) * w
}

// One column's sum.
pub(crate) fn sum(src: &[f32], row: usize, at0: usize, ws: &[f64]) -> f64
    requires { Summable ws.now src.now at0 row 1 }
    ensures { result ≡ column_sum ws.now src.now at0 row (length ws.now) }
{
    let mut acc: f64 = 0.0;
    let mut at = at0;
    for w in ws {
        acc = step(acc, *w, src[at]);
        at += row;
    }
    acc
}

// Sixteen sums of k lines, and line k more.
fn add16(ss: [f64; 16], src: &[f32], row: usize, at0: usize, ws: &[f64], k: usize) -> [f64; 16]
    requires summable { Summable ws.now src.now at0 row 16 }
    requires k_in_bounds { k < length ws.now }
    requires sums16 { Sums16 ss ws.now src.now at0 row k }
    ensures { Sums16 result ws.now src.now at0 row (k + 1) }
{
    let at = at0 + k * row;
    let w = ws[k];
    let mut r = ss;
    for t in 0..16 {
        r[t] = step(r[t], w, src[at + t]);
    }
    r
}

// Four lines more.
fn add_four16(ss: [f64; 16], src: &[f32], row: usize, at0: usize, ws: &[f64], k: usize) -> [f64; 16]
    requires summable { Summable ws.now src.now at0 row 16 }
    requires k_in_bounds { k + 4 ≤ length ws.now }
    requires sums16 { Sums16 ss ws.now src.now at0 row k }
    ensures { Sums16 result ws.now src.now at0 row (k + 4) }
{
    let a = add16(ss, src, row, at0, ws, k);
    let b = add16(a, src, row, at0, ws, k + 1);
    let c = add16(b, src, row, at0, ws, k + 2);
    add16(c, src, row, at0, ws, k + 3)
}

// Sixteen sums of the first n lines, line by line.
fn first16(src: &[f32], row: usize, at0: usize, ws: &[f64], n: usize) -> [f64; 16]
    requires summable { Summable ws.now src.now at0 row 16 }
    requires n_in_bounds { n ≤ length ws.now }
    ensures { Sums16 result ws.now src.now at0 row n }
{
    let mut ss: [f64; 16] = [0.0; 16];
    for k in 0..n {
        let more = add16(ss, src, row, at0, ws, k);
        ss = more;
    }
    ss
}

// The sums of sixteen columns: first the one to three lines that four does not divide, if any, then four a turn, so that few instructions go to the turns.
pub(crate) fn sums16(src: &[f32], row: usize, at0: usize, ws: &[f64]) -> [f64; 16]
    requires { Summable ws.now src.now at0 row 16 }
    ensures { (t : ℕ) → t < 16 → get_or result t nan ≡ column_sum ws.now src.now (at0 + t) row (length ws.now) }
{
    let first = ws.len() % 4;
    let mut ss = first16(src, row, at0, ws, first);
    for q in 0..ws.len() / 4 {
        let more = add_four16(ss, src, row, at0, ws, first + q * 4);
        ss = more;
    }
    ss
}
