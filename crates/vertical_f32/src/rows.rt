// Every window's row, each in its place of the output, and whether every sample is finite.
ghost use Rattle.std.specs.Prelude.{◌≡◌, true, ℕ, ◌+◌, ◌*◌, ◌/◌, ◌^◌, ◌<◌, ◌≤◌, length, get_or, take, drop};
ghost use Rattle.std.specs.Float.{nan};
ghost use Rattle.floats.specs.Within.{AtMost};
ghost use Rattle.vertical.specs.Ready.{Ready};
ghost use Rattle.row_f32.specs.Column.{column_value, window_value, Summable};
ghost use Rattle.finite_f32.specs.Scan.{Zeros, Flags, SmallSamples, SmallWeights};

use finite_f32::{all_four, is_zero, rest};
use row_f32::fill;

// One window's row in its place: the weights from a on, the samples of the output from o on.
fn place(
    z0: [f32; 4],
    src: &[f32],
    row: usize,
    at: usize,
    ws: &[f64],
    a: usize,
    size: usize,
    out: &mut [f32],
    o: usize,
    count: usize,
) -> [f32; 4]
    requires z0_len { (length z0 ≡ 4) × Flags 4 z0 }
    requires count_bound { (at + count < 2 ^ 63) × (a + size ≤ length ws.now) × (o + count ≤ length out.old) }
    requires summable { Summable (take size (drop a ws.now)) src.now at row count }
    ensures by_index { (t : ℕ) → t < count → get_or out.new (o + t) nan ≡ column_value (take size (drop a ws.now)) src.now (at + t) row size }
    ensures by_index_2 { (x : ℕ) → x < o → get_or out.new x nan ≡ get_or out.old x nan }
    ensures result_len { (length result ≡ 4) × Flags 4 result × (Zeros 4 result → Zeros 4 z0) }
    ensures at_most { Zeros 4 result → (t : ℕ) → t < count / 16 * 16 → AtMost (column_value (take size (drop a ws.now)) src.now (at + t) row size) (2 ^ 128) }
{
    let e = a + size;
    let f = o + count;
    fill(z0, src, row, at, &ws[a..e], &mut out[o..f])
}

// Every window's row: window i has the camera lines from starts[i] on, sizes[i] of them, and the weights from i * window on. True only if every sample is finite.
pub(crate) fn rows(
    src: &[f32],
    row: usize,
    first: usize,
    count: usize,
    weights: &[f64],
    starts: &[u32],
    sizes: &[u32],
    window: usize,
    out: &mut [f32],
) -> bool
    requires ready { Ready (length src.now) row first count starts.now sizes.now window (length weights.now) (length out.old) }
    requires small_weights { SmallWeights starts.now sizes.now window weights.now }
    requires small_samples { SmallSamples src.now row first count starts.now sizes.now }
    ensures by_index { (i : ℕ) → i < length starts.now → (j : ℕ) → j < count → get_or out.new (i * count + j) nan ≡ window_value src.now row first starts.now sizes.now window weights.now i j }
    ensures at_most { result ≡ true → (i : ℕ) → i < length starts.now → (j : ℕ) → j < count → AtMost (window_value src.now row first starts.now sizes.now window weights.now i j) (2 ^ 128) }
{
    let mut zz: [f32; 4] = [0.0; 4];
    let mut z: f32 = 0.0;
    for i in 0..starts.len() {
        let m = place(
            zz,
            src,
            row,
            starts[i] as usize * row + first,
            weights,
            i * window,
            sizes[i] as usize,
            out,
            i * count,
            count,
        );
        zz = m;
        z = rest(z, out, i * count, count / 16 * 16, count);
    }
    if !all_four(zz) {
        return false;
    }
    is_zero(z)
}
