// What is refused: the pixels' own tests, then the vertical pass's on the exchanged frame, whose lines are the pixels of a row and whose rows are rows x components long.
// Counts are tested before they are multiplied.
ghost use Rattle.std.specs.Prelude.{◌≡◌, not, ◌||◌, ◌*◌, ◌/◌, ◌≤◌};
ghost use Rattle.vertical.specs.Frame.{bad_size, bad_area};
ghost use Rattle.sideways.specs.Sideways.{bad_pixels};

use super::PixelFrame;
use vertical::{Frame, frame_fits, size_fits};

// Whether there are one to four components, and a row is a whole number of pixels.
fn pixels_fit(components: u32, row: u32) -> bool
    ensures { result ≡ not (bad_pixels components row) }
{
    if components < 1 {
        return false;
    }
    if 4 < components {
        return false;
    }
    row % components == 0
}

// Whether the pixels fit, and the sizes of the exchanged frame.
pub(crate) fn sizes_fit(frame: PixelFrame, windows: usize) -> bool
    ensures { result ≡ not (bad_pixels frame.components frame.row || bad_size (frame.row / frame.components) windows (frame.rows * frame.components)) }
{
    if !pixels_fit(frame.components, frame.row) {
        return false;
    }
    if 32768 < frame.rows {
        return false;
    }
    let turned = Frame {
        lines: frame.row / frame.components,
        row: frame.rows * frame.components,
        first: 0,
        count: 0,
    };
    size_fits(turned, windows)
}

// Whether the frame and the rows asked for fit their lists, for sizes that fit.
pub(crate) fn rows_fit(frame: PixelFrame, samples: usize, windows: usize, room: usize) -> bool
    requires { (1 ≤ frame.components) × (frame.components ≤ 4) × (frame.rows ≤ 32768) }
    ensures { result ≡ not (bad_area (frame.row / frame.components) windows samples (frame.rows * frame.components) (frame.first * frame.components) (frame.count * frame.components) room) }
{
    if frame.rows < frame.first {
        return false;
    }
    if frame.rows < frame.count {
        return false;
    }
    let turned = Frame {
        lines: frame.row / frame.components,
        row: frame.rows * frame.components,
        first: frame.first * frame.components,
        count: frame.count * frame.components,
    };
    frame_fits(turned, samples, windows, room)
}
