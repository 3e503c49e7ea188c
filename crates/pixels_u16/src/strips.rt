// All windows' pixels: a strip of rows after the other, and in a strip a window after the other.
ghost use Rattle.std.specs.Prelude.{◌≡◌, ℕ, ◌+◌, ◌*◌, ◌^◌, ◌<◌, ◌≤◌, length};
ghost use Rattle.lists.specs.Tab.{tab};
ghost use Rattle.vertical.specs.Ready.{Ready};
ghost use Rattle.pixels_u16.specs.Places.{side_by_side, at_once_value, row_values, behind, Put};

use super::blocks::pixels;

// The n rows from sample a on, into the output from b on: window i has the pixels from starts[i] on, sizes[i] of them, and the weights from i * window on.
fn strip(
    src: &[u16],
    a: usize,
    components: usize,
    row: usize,
    weights: &[i32],
    starts: &[u32],
    sizes: &[u32],
    window: usize,
    p: u32,
    out: &mut [u16],
    b: usize,
    n: usize,
)
    requires le_p { (1 ≤ p) × (p ≤ 45) }
    requires le_components { (1 ≤ components) × (components ≤ 4) }
    requires ready { Ready row components 0 components starts.now sizes.now window (length weights.now) (length starts.now * components) }
    requires n_value { (1 < n → (n ≡ side_by_side components) × (window ≤ 32)) × (1 ≤ n) }
    requires row_in_bounds { (a + n * row ≤ length src.now) × (length src.now < 2 ^ 40) × (b + n * (length starts.now * components) ≤ length out.old) × (length out.old < 2 ^ 40) }
    ensures { Put (row_values src.now a components row starts.now sizes.now window weights.now p) (behind b) (n * (length starts.now * components)) out.old out.new }
{
    let across = starts.len() * components;
    let mut o = b;
    for i in 0..starts.len() {
        let f = i * window;
        let e = f + sizes[i] as usize;
        let at = a + starts[i] as usize * components;
        pixels(
            src,
            at,
            components,
            row,
            &weights[f..e],
            p,
            out,
            o,
            across,
            n,
        );
        o += components;
    }
}

// How many rows go side by side.
fn side_by_side(components: usize) -> usize
    ensures { result ≡ side_by_side components }
{
    if components < 3 {
        return 8;
    }
    4
}

// How many of the rows that are left are next.
fn at_once(components: usize, window: usize, left: usize) -> usize
    ensures { result ≡ at_once_value components window left }
{
    let n = side_by_side(components);
    if (32 < window) | (left < n) {
        return 1;
    }
    n
}

// Every window's pixel of the rows from `first` on, count of them.
pub fn fill_rows(
    src: &[u16],
    components: usize,
    row: usize,
    first: usize,
    count: usize,
    weights: &[i32],
    starts: &[u32],
    sizes: &[u32],
    window: usize,
    p: u32,
    out: &mut [u16],
)
    requires le_p { (1 ≤ p) × (p ≤ 45) }
    requires le_components { (1 ≤ components) × (components ≤ 4) }
    requires ready { Ready row components 0 components starts.now sizes.now window (length weights.now) (length starts.now * components) }
    requires row_in_bounds { ((first + count) * row ≤ length src.now) × (length src.now < 2 ^ 40) × (length out.old ≡ count * (length starts.now * components)) × (length out.old < 2 ^ 40) }
    ensures written { out.new ≡ tab 0 (count * (length starts.now * components)) (row_values src.now (first * row) components row starts.now sizes.now window weights.now p) }
{
    let across = starts.len() * components;
    let mut a = first * row;
    let mut b: usize = 0;
    let mut y: usize = 0;
    // A `while`: a turn takes as many rows as `at_once` says, so no range has its steps.
    while y < count {
        let n = at_once(components, window, count - y);
        strip(
            src, a, components, row, weights, starts, sizes, window, p, out, b, n,
        );
        a += n * row;
        b += n * across;
        y += n;
    }
}
