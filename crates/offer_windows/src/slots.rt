// The slots of a stored set: our own offer, and an offer that is taken over.
ghost use Rattle.std.specs.Prelude.{◌≡◌, ◌*◌, ◌≤◌, ◌<◌, length};
ghost use Rattle.lists.specs.Tab.{tab, front, grid};
ghost use Rattle.offer_windows.specs.Walks.{offered_in, replaced_in};

use offer_rows::offer_window;
use weight_precision::in_use;
use windows::Weight;

// Our own offer for every window.
pub fn write_offers<W: Weight>(
    window: u32,
    weights: &[W],
    sizes: &[u32],
    excesses: &[i64],
    out: &mut [W],
)
    requires { (length weights.now ≡ length sizes.now * window) × (length excesses.now ≡ length sizes.now) × (length weights.now ≤ length out.old) }
    ensures written { W.values out.new ≡ front (length sizes.now * window) (grid window (offered_in W.STORE.limit window (W.values weights.now) sizes.now excesses.now)) (W.values out.old) }
{
    for (i, size) in sizes.iter().enumerate() {
        let a = i * window as usize;
        let b = a + window as usize;
        offer_window(excesses[i], weights, a, *size as usize, &mut out[a..b]);
    }
}

// The offered weights in the slots in use.
pub fn replace<W: Weight>(window: u32, sizes: &[u32], offered: &[W], weights: &mut [W])
    requires { (0 < window) × (length weights.old ≡ length sizes.now * window) × (length offered.now ≡ length weights.old) }
    ensures written { W.values weights.new ≡ tab 0 (length weights.old) (replaced_in window (W.values weights.old) (W.values offered.now) sizes.now) }
{
    for k in 0..weights.len() {
        if in_use(k, window, sizes) {
            weights[k] = offered[k];
        }
    }
}
