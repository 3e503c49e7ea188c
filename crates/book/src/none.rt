// A place without a sheet.
ghost use Rattle.std.specs.Prelude.{◌≡◌, [], ◌-◌, ◌≤◌};
ghost use Rattle.refusal.specs.declared.Refusal.TheVariants.{NotASheet};
ghost use Rattle.refusal.specs.Refusal.{number_of};
ghost use Rattle.book_numbers.specs.Marks.{numbers_of};

use book_numbers::Report;
use refusal::{Numbered, Refusal};

// The report of a text that has no sheet at a place, and is right up to another: of what the bad sheet says nothing counts.
pub(crate) fn no_sheet(at: usize, stop: usize) -> Report
    requires { at ≤ stop }
    ensures answer { result ≡ numbers_of 0 [] (number_of NotASheet) (stop - at) }
{
    Report {
        sheets: 0,
        windows: 0,
        least: 0,
        most: 0,
        notflat: 0,
        negative: 0,
        stopped: Refusal::NotASheet.number(),
        byte: (stop - at) as u64,
    }
}
