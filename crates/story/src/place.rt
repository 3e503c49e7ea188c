// Whether a place exists.
ghost use Rattle.std.specs.Prelude.{◌≡◌};
ghost use Rattle.story.specs.Answer.{bad_place};

use windows::DisplayLine;

// Whether the display line or the column does not exist.
pub(crate) fn misses(windows: usize, row: u32, line: DisplayLine, column: u32) -> bool
    ensures answer { result ≡ bad_place windows row line.0 column }
{
    !((line.0 as usize) < windows) | !(column < row)
}
