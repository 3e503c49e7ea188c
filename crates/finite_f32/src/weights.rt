// No. 12, the weights in use: finite and at most 2^64 in size. Slots that are not in use are not looked at.
ghost use Rattle.std.specs.Prelude.{◌≡◌, true, false, ℕ, ◌+◌, ◌*◌, ◌^◌, ◌<◌, ◌≤◌, length, get_or};
ghost use Rattle.std.specs.Float.{nan};
ghost use Rattle.floats.specs.Within.{AtMost};
ghost use Rattle.finite_f32.specs.Scan.{SmallWeights};

// Whether one weight is at most 2^64 in size. A NaN fails the first test.
fn weight_fits(w: f64) -> bool
    ensures at_most { result ≡ true → AtMost w (2 ^ 64) }
    ensures fact { result ≡ false → AtMost w (2 ^ 64) → ⊥ }
{
    if w <= 18446744073709551616.0 {
        return -18446744073709551616.0 <= w;
    }
    false
}

// Whether those of one window are: `size` of them from slot a on.
fn window_fits(ws: &[f64], a: usize, size: usize) -> bool
    requires { a + size ≤ length ws.now }
    ensures at_most { result ≡ true → (k : ℕ) → k < size → AtMost (get_or ws.now (a + k) nan) (2 ^ 64) }
    ensures fact { result ≡ false → ((k : ℕ) → k < size → AtMost (get_or ws.now (a + k) nan) (2 ^ 64)) → ⊥ }
{
    ws[a..a + size].iter().all(|w| weight_fits(*w))
}

// Whether those of every window are.
pub fn weights_fit(ws: &[f64], starts: &[u32], sizes: &[u32], window: usize) -> bool
    requires starts_len { (length starts.now ≡ length sizes.now) × (length ws.now ≡ length starts.now * window) × (length starts.now ≤ 8192) × (window ≤ 32769) }
    requires by_index { (i : ℕ) → i < length starts.now → get_or sizes.now i 0 ≤ window }
    ensures small_weights { result ≡ true → SmallWeights starts.now sizes.now window ws.now }
    ensures fact { result ≡ false → SmallWeights starts.now sizes.now window ws.now → ⊥ }
{
    for (i, size) in sizes.iter().enumerate() {
        if !window_fits(ws, i * window, *size as usize) {
            return false;
        }
    }
    true
}
