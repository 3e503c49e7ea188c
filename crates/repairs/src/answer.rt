// The number of an offer that was not made, and the line beside it.
ghost use Rattle.std.specs.Prelude.{◌≡◌};
ghost use Rattle.repairs.specs.Answer.{not_offered_number, offered_line};

use crate::NotOffered;
use refusal::{Numbered, Refusal};

// 14 where a window has no offer, else the refusal's number.
impl Numbered for NotOffered {
    ghost number_of = { not_offered_number };

    fn number(&self) -> u32 {
        match self {
            NotOffered::NotFound(_) => Refusal::NoOffer.number(),
            NotOffered::Refused(refusal) => refusal.number(),
        }
    }
}

// The first line whose window has no offer, 0 where the answer is another.
pub fn line(offered: Result<(), NotOffered>) -> u32
    ensures answer { result ≡ offered_line offered }
{
    match offered {
        Ok(()) => 0,
        Err(NotOffered::NotFound(line)) => line.0,
        Err(NotOffered::Refused(_)) => 0,
    }
}
