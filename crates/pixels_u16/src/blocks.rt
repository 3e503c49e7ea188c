// One window's pixels of several rows, summed side by side and put in their places, which lie a row of the output apart.
ghost use Rattle.std.specs.Prelude.{◌≡◌, not, ℕ, ◌+◌, ◌*◌, ◌^◌, ◌<◌, ◌≤◌, T, length, get_or};
ghost use Rattle.std.specs.Float.{nan};
ghost use Rattle.std.specs.Float.Ieee.{is_nan};
ghost use Rattle.lists.specs.Tab.{tab};
ghost use Rattle.row_u16.specs.Chunks.{placed, cut_at};
ghost use Rattle.pixels_u16.specs.Places.{place_at, value_of, sample_of, sample_from, behind, side_by_side, Put};

use super::sums::sum_pixels;
use row_u16::{cut, fill, scaled};

// Sums made samples.
fn round_all(ss: &[f64], top: f64, big: f64, samples: &mut [u16])
    requires by_index { (t : ℕ) → t < length ss.now → T (not (is_nan (placed (get_or ss.now t nan) top big))) }
    requires samples_len { length samples.old ≡ length ss.now }
    ensures { samples.new ≡ tab 0 (length ss.now) (cut_at ss.now top big) }
{
    for (t, sample) in samples.iter_mut().enumerate() {
        *sample = cut(ss[t], top, big);
    }
}

// One pixel's samples, from `from` on, put from o on.
fn put_pixel(samples: &[u16], from: usize, components: usize, out: &mut [u16], o: usize)
    requires { (from + components ≤ length samples.now) × (o + components ≤ length out.old) }
    ensures { Put (sample_from samples.now from) (behind o) components out.old out.new }
{
    for k in 0..components {
        out[o + k] = samples[from + k];
    }
}

// The pixels of n rows put in their places. The number of rows is not for the compiler to know: it would take the loop apart, and then round each sample by itself.
fn put_pixels(samples: &[u16], components: usize, n: usize, out: &mut [u16], o0: usize, wide: usize)
    requires le_components { (1 ≤ components) × (o0 < 2 ^ 62) × (wide < 2 ^ 40) × (n ≤ 16) }
    requires samples_len { length samples.now ≡ n * components }
    requires by_index { (t : ℕ) → t < n * components → place_at o0 components wide t < length out.old }
    ensures { Put (sample_of samples.now) (place_at o0 components wide) (n * components) out.old out.new }
{
    for y in 0..n {
        put_pixel(samples, y * components, components, out, o0 + y * wide);
    }
}

// The pixels of n rows, SUMS samples in all, of COMPONENTS each: as numbers, so that the compiler keeps the sums in registers, and rounded side by side they stay vectors.
fn block<const SUMS: usize, const COMPONENTS: usize>(
    src: &[u16],
    at: usize,
    row: usize,
    ws: &[i32],
    p: u32,
    out: &mut [u16],
    o: usize,
    wide: usize,
    n: usize,
)
    requires le_p { (1 ≤ p) × (p ≤ 45) }
    requires sums { (SUMS ≡ n * COMPONENTS) × (SUMS ≤ 16) × (1 ≤ COMPONENTS) × (COMPONENTS ≤ 4) × (n ≤ 16) }
    requires places { (at < 2 ^ 63) × (o < 2 ^ 62) × (wide < 2 ^ 40) }
    requires ws_len_bound { length ws.now ≤ 32 }
    requires by_index { (k : ℕ) → k < length ws.now → (t : ℕ) → t < n * COMPONENTS → place_at (at + k * COMPONENTS) COMPONENTS row t < length src.now }
    requires by_index_2 { (t : ℕ) → t < n * COMPONENTS → place_at o COMPONENTS wide t < length out.old }
    ensures { Put (value_of p ws.now src.now at COMPONENTS row) (place_at o COMPONENTS wide) (n * COMPONENTS) out.old out.new }
{
    let top = scaled(0x40ef_ffe0_0000_0000, p);
    let big = scaled(0x4330_0000_0000_0000, p);
    let mut ss: [f64; SUMS] = [0.5; SUMS];
    sum_pixels(src, at, COMPONENTS, row, ws, &mut ss);
    let mut samples: [u16; SUMS] = [0; SUMS];
    round_all(&ss, top, big, &mut samples);
    put_pixels(&samples, COMPONENTS, n, out, o, wide);
}

// One window's pixels of as many rows as go side by side.
fn several(
    src: &[u16],
    at: usize,
    components: usize,
    row: usize,
    ws: &[i32],
    p: u32,
    out: &mut [u16],
    o: usize,
    wide: usize,
    n: usize,
)
    requires le_p { (1 ≤ p) × (p ≤ 45) }
    requires le_components { (1 ≤ components) × (components ≤ 4) × (at < 2 ^ 63) × (o < 2 ^ 62) × (wide < 2 ^ 40) × (n ≡ side_by_side components) }
    requires ws_len_bound { length ws.now ≤ 32 }
    requires by_index { (k : ℕ) → k < length ws.now → (t : ℕ) → t < n * components → place_at (at + k * components) components row t < length src.now }
    requires by_index_2 { (t : ℕ) → t < n * components → place_at o components wide t < length out.old }
    ensures { Put (value_of p ws.now src.now at components row) (place_at o components wide) (n * components) out.old out.new }
{
    match components {
        1 => block::<8, 1>(src, at, row, ws, p, out, o, wide, n),
        2 => block::<16, 2>(src, at, row, ws, p, out, o, wide, n),
        3 => block::<12, 3>(src, at, row, ws, p, out, o, wide, n),
        _ => block::<16, 4>(src, at, row, ws, p, out, o, wide, n),
    }
}

// One window's pixels of n rows: of one row, or of as many as go side by side.
pub(crate) fn pixels(
    src: &[u16],
    at: usize,
    components: usize,
    row: usize,
    ws: &[i32],
    p: u32,
    out: &mut [u16],
    o: usize,
    wide: usize,
    n: usize,
)
    requires le_p { (1 ≤ p) × (p ≤ 45) }
    requires le_components { (1 ≤ components) × (components ≤ 4) × (at < 2 ^ 62) × (o < 2 ^ 62) × (length ws.now ≤ 8192) × (wide < 2 ^ 40) }
    requires n_value { (1 < n → (n ≡ side_by_side components) × (length ws.now ≤ 32)) × (1 ≤ n) }
    requires by_index { (k : ℕ) → k < length ws.now → (t : ℕ) → t < n * components → place_at (at + k * components) components row t < length src.now }
    requires by_index_2 { (t : ℕ) → t < n * components → place_at o components wide t < length out.old }
    ensures { Put (value_of p ws.now src.now at components row) (place_at o components wide) (n * components) out.old out.new }
{
    if 1 < n {
        several(src, at, components, row, ws, p, out, o, wide, n);
        return;
    }
    let e = o + components;
    fill(src, components, at, ws, p, &mut out[o..e]);
}
