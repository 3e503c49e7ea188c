// `make_offers`: an offer of our own. `make_offer` writes one for a stored set, in either store as `make_offer16` and `make_offer32`, or says the first display line that has none
// (the rules and the promises of both sides stand in `repairs`). Where a call is refused nothing is touched.
#![tactic(auto)]

mod judge;
mod make;

pub use make::{make_offer, make_offer16, make_offer32};
