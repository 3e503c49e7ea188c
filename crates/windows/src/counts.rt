// The tests of counts and windows that make up No. 10.
ghost use Rattle.std.specs.Prelude.{◌≡◌, ◌*◌, eqb, length};
ghost use Rattle.lists.specs.Tab.{any};
ghost use Rattle.windows.specs.Set.{layout_of};
ghost use Rattle.windows.specs.Fit.{bad_counts, bad_window, bad_at};

use crate::{CameraLine, Window};

// Whether a list has `each` slots for each of `rows`, for any numbers. A quotient stands for the product, which may be too large for a usize.
pub fn fills(places: usize, rows: usize, each: u32) -> bool
    ensures answer { result ≡ eqb places (rows * each) }
{
    if each == 0 {
        return places == 0;
    }
    let wide = each as usize;
    (places / wide == rows) & (places % wide == 0)
}

// Whether the window size is out of its range or the counts differ.
pub(crate) fn counts_misfit(window_size: u32, slots: usize, starts: usize, sizes: usize) -> bool
    ensures answer { result ≡ bad_counts window_size slots starts sizes }
{
    let full = fills(slots, starts, window_size);
    (((window_size < 1) | (32769 < window_size)) | (starts != sizes)) | !full
}

// Whether some window of the lists is bad.
pub(crate) fn some_misfits(lines: u32, window_size: u32, starts: &[u32], sizes: &[u32]) -> bool
    requires { length starts.now ≡ length sizes.now }
    ensures answer { result ≡ any (length starts.now) (bad_at (layout_of lines window_size starts.now sizes.now)) }
{
    let mut bad = false;
    for (i, start) in starts.iter().enumerate() {
        let w = Window {
            start: CameraLine(*start),
            size: sizes[i],
        };
        bad = bad | misfits(w, lines, window_size);
    }
    bad
}

// Whether one window is bad. Its end is taken in 64 bits, where it cannot wrap.
fn misfits(w: Window, lines: u32, window_size: u32) -> bool
    ensures answer { result ≡ bad_window lines window_size w.start.0 w.size }
{
    let end = w.start.0 as u64 + w.size as u64;
    ((w.size < 1) | (window_size < w.size)) | ((lines as u64) < end)
}
