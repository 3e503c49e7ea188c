// The sums of up to 32 lines in doubles, sixteen columns side by side. Every sum is a whole number of halves below 2^53 in size, so nothing rounds before the end;
// and SSE2 multiplies doubles two at a time, where it multiplies 64-bit integers one by one.
ghost use Rattle.std.specs.Prelude.{◌≡◌, ℕ, ◌+◌, ◌*◌, ◌^◌, ◌<◌, ◌≤◌, pos, nat_abs, length, get_or};
ghost use Rattle.std.specs.Float.{binary64, nan};
ghost use Rattle.std.specs.Float.Ieee.{add, mul, of_int};
ghost use Rattle.vertical.specs.Column.{column_sum};
ghost use Rattle.row_u16.specs.Chunks.{half_more};

// A sample as a double.
fn sample(s: u16) -> f64
    ensures { result ≡ of_int binary64 (pos s) }
{
    s as f64
}

// A weight as a double.
pub fn weight(w: i32) -> f64
    ensures answer { result ≡ of_int binary64 w }
{
    w as f64
}

// One weight times one sample, added.
pub fn added(acc: f64, w: f64, s: u16) -> f64
    ensures answer { result ≡ add binary64 acc (mul binary64 (of_int binary64 (pos s)) w) }
{
    acc + sample(s) * w
}

// One line's part of sixteen sums.
fn add16(ss: [f64; 16], src: &[u16], at: usize, w: f64) -> [f64; 16]
    requires ss_len { length ss ≡ 16 }
    requires at_in_bounds { at + 16 ≤ length src.now }
    ensures result_len { length result ≡ 16 }
    ensures by_index { (t : ℕ) → t < 16 → get_or result t nan ≡ add binary64 (get_or ss t nan) (mul binary64 (of_int binary64 (pos (get_or src.now (at + t) 0))) w) }
{
    let mut r = ss;
    for t in 0..16 {
        r[t] = added(r[t], w, src[at + t]);
    }
    r
}

// The sums of sixteen columns, each with a half added, so that no sum is a tie between two results.
pub(crate) fn sums16(src: &[u16], row: usize, at0: usize, ws: &[i32]) -> [f64; 16]
    requires row_bound { row ≤ 32768 }
    requires ws_len_bound { length ws.now ≤ 32 }
    requires by_index { (k : ℕ) → k < length ws.now → at0 + k * row + 16 ≤ length src.now }
    ensures by_index_2 { (t : ℕ) → t < 16 → get_or result t nan ≡ half_more (column_sum ws.now src.now (at0 + t) row (length ws.now)) }
    ensures by_index_3 { (t : ℕ) → t < 16 → nat_abs (column_sum ws.now src.now (at0 + t) row (length ws.now)) < 2 ^ 52 }
{
    let mut ss: [f64; 16] = [0.5; 16];
    let mut at = at0;
    for w in ws {
        let more = add16(ss, src, at, weight(*w));
        ss = more;
        at += row;
    }
    ss
}
