// No. 9: whether some window's weights could make a sum pass 2^31 - 1. It is judged by the sizes of the weights in use and the largest sample, so that no frame matters.
ghost use Rattle.std.specs.Prelude.{◌≡◌, ◌-◌, ◌^◌, ◌≤◌, nat_abs, length};
ghost use Rattle.lists.specs.Tab.{any};
ghost use Rattle.windows.specs.Fit.{InSlots};
ghost use Rattle.vertical.specs.Column.{weight_at};
ghost use Rattle.row_u8.specs.Sizes.{sizes_total_value};
ghost use Rattle.vertical_u8.specs.U8.{heavy};
ghost use Rattle.vertical_u8.specs.Inner.{slot_heavy};

// The size of a weight. -1 - w fits for every w below 0, where -w would not.
fn size(w: i16) -> u64
    ensures { result ≡ nat_abs w }
{
    if w < 0 {
        return ((-1 - w) as u64) + 1;
    }
    w as u64
}

// The sizes of a window's weights, added up.
fn sizes_total(ws: &[i16]) -> u64
    requires { length ws.now ≤ 8192 }
    ensures { (result ≡ sizes_total_value (weight_at ws.now) (length ws.now)) × (result ≤ 2 ^ 28) }
{
    let mut total: u64 = 0;
    for w in ws {
        total += size(*w);
    }
    total
}

// Half of 2^p, for p from 1 to 21.
fn half(p: u32) -> u64
    requires { (1 ≤ p) × (p ≤ 21) }
    ensures { result ≡ 2 ^ (p - 1) }
{
    1u64 << (p - 1)
}

// Whether a window's weights are too heavy.
fn is_heavy(ws: &[i16], p: u32) -> bool
    requires le_p { (1 ≤ p) × (p ≤ 21) }
    requires ws_len_bound { length ws.now ≤ 8192 }
    ensures { result ≡ heavy p (weight_at ws.now) (length ws.now) }
{
    2147483647 < 255 * sizes_total(ws) + half(p)
}

// Whether some window's are. Window i has the weights from i * window on, sizes[i] of them in use.
pub(crate) fn some_heavy(weights: &[i16], sizes: &[u32], window: usize, p: u32) -> bool
    requires le_p { (1 ≤ p) × (p ≤ 21) }
    requires in_slots { InSlots window sizes.now (length weights.now) }
    ensures { result ≡ any (length sizes.now) (slot_heavy window weights.now sizes.now p) }
{
    let mut bad = false;
    for i in 0..sizes.len() {
        let a = i * window;
        let e = a + sizes[i] as usize;
        bad = bad | is_heavy(&weights[a..e], p);
    }
    bad
}
