// `repairs`: the rules of offered repairs, and their answers. An offer moves weights by at most 1 inside their type so that every window's total is 2^precision (`Repair`, one
// window, in `offers`). `accept_offers` judges an offer for a stored set and takes it over, `make_offers` writes one of our own; what the two promise each other and the set
// is proved here, over the definitions.
#![tactic(auto)]

mod answer;

pub use answer::line;
use refusal::Refusal;
use windows::DisplayLine;

// Why no offer is written.
#[derive(Clone, Copy)]
pub enum NotOffered {
    // 14: this display line's window is the first that has no offer
    NotFound(DisplayLine),
    // 1, 7 or 10
    Refused(Refusal),
}
