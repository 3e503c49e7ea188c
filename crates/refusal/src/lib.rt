// `refusal`: why a call is refused, one case of `Refusal` for each number of document 01's table and of document 02's requests, in their order.
#![tactic(auto)]

ghost use Rattle.std.specs.Prelude.{◌≡◌, ℕ};
ghost use Rattle.refusal.specs.Refusal.{number_of as number_of_refusal, answer_number};

#[derive(Clone, Copy, Debug, PartialEq, Eq)]
pub enum Refusal {
    // 1: a side or row length outside the sizes
    BadSide,
    // 2: a crop or centring number is NaN or infinite
    NotFinite,
    // 3: crop width or height below 0
    NegativeExtent,
    // 4: left or top below 0, or at or past the image side
    StartOutside,
    // 5: left + width, or top + height, past the image side
    EndOutside,
    // 6: scale is 0 or less
    NoScale,
    // 7: fewer slots, starts or sizes lent than needed
    TooFewSlots,
    // 8: a window has no weight other than 0, or its weight total is 0
    BlankWindow,
    // 9: a weight not finite, a precision below 4, or a rounded weight outside its type
    WeightOutside,
    // 10: list lengths, a column range or a window do not fit
    DoesNotFit,
    // 11: sheet room too small
    NoRoom,
    // 12: f32 pass: a sample or weight in use not finite, or a weight above 2^64
    SampleOutside,
    // 13: text not of a sheet's form
    NotASheet,
    // 14: an offer of changed weights not accepted, or none found
    NoOffer,
    // 15: shares that do not fit into the store
    SharesDoNotFit,
    // 16: a filter that no new set is built with
    RetiredFilter,
}

// What has a number of the table: a refusal, the error of a call that has more to say than a refusal, and the answer of a call.
pub trait Numbered {
    ghost number_of: { Self → ℕ };

    fn number(&self) -> u32
        ensures answer { result ≡ number_of self.now };
}

// The number of the table.
impl Numbered for Refusal {
    ghost number_of = { number_of_refusal };

    fn number(&self) -> u32 {
        match self {
            Refusal::BadSide => 1,
            Refusal::NotFinite => 2,
            Refusal::NegativeExtent => 3,
            Refusal::StartOutside => 4,
            Refusal::EndOutside => 5,
            Refusal::NoScale => 6,
            Refusal::TooFewSlots => 7,
            Refusal::BlankWindow => 8,
            Refusal::WeightOutside => 9,
            Refusal::DoesNotFit => 10,
            Refusal::NoRoom => 11,
            Refusal::SampleOutside => 12,
            Refusal::NotASheet => 13,
            Refusal::NoOffer => 14,
            Refusal::SharesDoNotFit => 15,
            Refusal::RetiredFilter => 16,
        }
    }
}

// 0 where the call did its work, else the number of what kept it from that.
impl<T, E: Numbered> Numbered for Result<T, E> {
    ghost number_of = { answer_number E.number_of };

    fn number(&self) -> u32 {
        match self {
            Ok(_) => 0,
            Err(error) => error.number(),
        }
    }
}
