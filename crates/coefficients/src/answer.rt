// The number of a build that failed, and what a caller in C takes beside the number of any build.
ghost use Rattle.std.specs.Prelude.{◌≡◌};
ghost use Rattle.coefficients.specs.Answer.{not_built_number, refused_as, line_of, window_of};

use crate::NotBuilt;
use refusal::{Numbered, Refusal};

// 8 for a blank window, else the refusal's.
impl Numbered for NotBuilt {
    ghost number_of = { not_built_number };

    fn number(&self) -> u32 {
        match self {
            NotBuilt::Blank(_) => Refusal::BlankWindow.number(),
            NotBuilt::Refused(refusal) => refusal.number(),
        }
    }
}

impl From<Refusal> for NotBuilt {
    ghost from_gives = { refused_as };

    fn from(refusal: Refusal) -> NotBuilt {
        NotBuilt::Refused(refusal)
    }
}

// The first blank display line, 0 beside every number but 8.
pub fn line(built: Result<u32, NotBuilt>) -> u32
    ensures answer { result ≡ line_of built }
{
    match built {
        Err(NotBuilt::Blank(line)) => line.0,
        _ => 0,
    }
}

// The window size of a set that was built, 0 beside every other number.
pub fn window_size(built: Result<u32, NotBuilt>) -> u32
    ensures answer { result ≡ window_of built }
{
    built.unwrap_or(0)
}
