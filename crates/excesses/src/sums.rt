// Totals and excesses of windows, in 64 bits, where 8,192 weights of 32 bits cannot wrap.
ghost use Rattle.std.specs.Prelude.{◌≡◌, ◌+◌, ◌^◌, ◌≤◌, ◌<◌, pos, nat_abs, ◌+ℤ◌, length};
ghost use Rattle.lists.specs.Tab.{front};
ghost use Rattle.integers.specs.Sums.{sum};
ghost use Rattle.windows.specs.Set.{excess};
ghost use Rattle.windows.specs.Fit.{InSlots};
ghost use Rattle.excesses.specs.Slots.{slot_from, excess_in};

use windows::Weight;

// A weight added to a total.
pub fn add(t: i64, w: i64) -> i64
    requires { (nat_abs t ≤ 2 ^ 62) × (nat_abs w ≤ 2 ^ 31) }
    ensures answer { result ≡ t +ℤ w }
{
    t + w
}

// The total of n weights from the slot a on.
fn total<W: Weight>(weights: &[W], a: usize, n: usize) -> i64
    requires { (n ≤ 8192) × (a + n ≤ length weights.now) }
    ensures answer { (result ≡ sum (slot_from (W.values weights.now) a) n) × (nat_abs result ≤ 2 ^ 44) }
{
    let mut t: i64 = 0;
    for weight in &weights[a..a + n] {
        t = add(t, weight.number());
    }
    t
}

// 2^p, for p up to 45.
pub fn power(p: u32) -> i64
    requires { p ≤ 45 }
    ensures answer { result ≡ pos (2 ^ p) }
{
    1i64 << p
}

// The excess of n weights from the slot a on.
pub fn excess_of<W: Weight>(p: u32, weights: &[W], a: usize, n: usize) -> i64
    requires { (p ≤ 45) × (n ≤ 8192) × (a + n ≤ length weights.now) }
    ensures answer { result ≡ excess p (slot_from (W.values weights.now) a) n }
{
    total(weights, a, n) - power(p)
}

// The excess of every window, in the first places of `out`.
pub fn write_excesses<W: Weight>(p: u32, window: u32, weights: &[W], sizes: &[u32], out: &mut [i64])
    requires p_bound { (p ≤ 45) × (length sizes.now ≤ length out.old) }
    requires in_slots { InSlots window sizes.now (length weights.now) }
    ensures written { out.new ≡ front (length sizes.now) (excess_in p window (W.values weights.now) sizes.now) out.old }
{
    for (i, size) in sizes.iter().enumerate() {
        out[i] = excess_of(p, weights, i * window as usize, *size as usize);
    }
}
