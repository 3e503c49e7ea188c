// No. 12, the samples in use: the columns past the last sixteen, and every line that is in some window, once where the windows start in order.
ghost use Rattle.std.specs.Prelude.{◌≡◌, true, false, ℕ, ◌+◌, ◌*◌, ◌<◌, ◌≤◌, T, length, get_or};
ghost use Rattle.finite_f32.specs.Scan.{is_zero_value, flag, Small, Finite, FiniteSamples, SmallSamples};

use super::scan::{all_zero, is_zero, lines16, zero_step};

// The columns from `from` on of one line, in one lane.
pub fn rest(z0: f32, src: &[f32], at: usize, from: usize, count: usize) -> f32
    requires { T (flag z0) × (at + count ≤ length src.now) }
    ensures t { T (flag result) × (T (is_zero_value result) → T (is_zero_value z0)) }
    ensures small { T (is_zero_value result) → Small src.now at from count }
    ensures t_2 { T (is_zero_value z0) → Finite src.now at from count → T (is_zero_value result) }
{
    let mut z = z0;
    for x in from..count {
        z = zero_step(z, src[at + x]);
    }
    z
}

// The same of the lines from `from` on below `to`.
fn rests(
    z0: f32,
    src: &[f32],
    row: usize,
    first: usize,
    start: usize,
    count: usize,
    from: usize,
    to: usize,
) -> f32
    requires t { T (flag z0) }
    requires row_bound { (row ≤ 32768) × (to ≤ 8192) × (first + count ≤ row) × (to * row ≤ length src.now) }
    ensures t_2 { T (flag result) × (T (is_zero_value result) → T (is_zero_value z0)) }
    ensures small { T (is_zero_value result) → (y : ℕ) → from ≤ y → y < to → Small src.now (y * row + first) start count }
    ensures t_3 { T (is_zero_value z0) → ((y : ℕ) → from ≤ y → y < to → Finite src.now (y * row + first) start count) → T (is_zero_value result) }
{
    let mut z = z0;
    for y in from..to {
        z = rest(z, src, y * row + first, start, count);
    }
    z
}

// The line to go on from: those from lo on below hi are done, and the window starts at a.
fn resume(a: usize, lo: usize, hi: usize) -> usize
    ensures { (a ≤ result) × ((y : ℕ) → a ≤ y → y < result → (lo ≤ y) × (y < hi)) }
{
    if a < lo {
        return a;
    }
    if hi < a {
        return a;
    }
    hi
}

// The larger of two.
fn greater(a: usize, b: usize) -> usize
    ensures { (a ≤ result) × (b ≤ result) × ((y : ℕ) → a ≤ y → y < result → y < b) }
{
    if a < b {
        return b;
    }
    a
}

// Whether every sample in use is finite. What is finite is below 2^128, which the sums need.
pub fn samples_fit(
    src: &[f32],
    row: usize,
    first: usize,
    count: usize,
    starts: &[u32],
    sizes: &[u32],
) -> bool
    requires row_bound { (row ≤ 32768) × (first + count ≤ row) × (length starts.now ≡ length sizes.now) }
    requires by_index { (i : ℕ) → i < length starts.now → get_or starts.now i 0 + get_or sizes.now i 0 ≤ 8192 }
    requires by_index_2 { (i : ℕ) → i < length starts.now → (get_or starts.now i 0 + get_or sizes.now i 0) * row ≤ length src.now }
    ensures small_samples { result ≡ true → SmallSamples src.now row first count starts.now sizes.now }
    ensures fact { result ≡ false → FiniteSamples src.now row first count starts.now sizes.now → ⊥ }
{
    let n = count / 16;
    let mut zz: [f32; 16] = [0.0; 16];
    let mut z: f32 = 0.0;
    let mut lo: usize = 0;
    let mut hi: usize = 0;
    for i in 0..starts.len() {
        let a = starts[i] as usize;
        let e = a + sizes[i] as usize;
        let b = resume(a, lo, hi);
        let m = lines16(zz, src, row, first, n, b, e);
        zz = m;
        z = rests(z, src, row, first, n * 16, count, b, e);
        lo = a;
        hi = greater(b, e);
    }
    if !all_zero(zz) {
        return false;
    }
    is_zero(z)
}
