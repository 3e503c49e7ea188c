// Every window's row, each in its place of the output.
ghost use Rattle.std.specs.Prelude.{◌≡◌, false, ◌*◌, ◌≤◌, length};
ghost use Rattle.lists.specs.Tab.{tab, grid, any};
ghost use Rattle.vertical.specs.Ready.{Ready};
ghost use Rattle.vertical.specs.Column.{window_value};
ghost use Rattle.vertical_u8.specs.Inner.{slot_heavy};

use row_u8::fill;

// Every window's row: window i has the camera lines from starts[i] on, sizes[i] of them, and the weights from i * window on.
pub(crate) fn rows(
    src: &[u8],
    row: usize,
    first: usize,
    count: usize,
    weights: &[i16],
    starts: &[u32],
    sizes: &[u32],
    window: usize,
    p: u32,
    out: &mut [u8],
)
    requires le_p { (1 ≤ p) × (p ≤ 21) }
    requires ready { Ready (length src.now) row first count starts.now sizes.now window (length weights.now) (length out.old) }
    requires p_value { any (length sizes.now) (slot_heavy window weights.now sizes.now p) ≡ false }
    ensures { out.new ≡ tab 0 (length starts.now * count) (grid count (window_value 255 src.now row first starts.now sizes.now window weights.now p)) }
{
    let mut o: usize = 0;
    for i in 0..starts.len() {
        let a = i * window;
        let e = a + sizes[i] as usize;
        let f = o + count;
        let at = starts[i] as usize * row + first;
        fill(src, row, at, &weights[a..e], p, &mut out[o..f]);
        o = f;
    }
}
