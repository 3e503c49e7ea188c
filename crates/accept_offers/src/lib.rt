// `accept_offers`: an offer of changed weights for a stored set. `accept_offer` judges it and takes it over, in either store as `accept_offer16` and `accept_offer32`
// (the rules and the promises of both sides stand in `repairs`). Where a call is refused nothing is touched.
#![tactic(auto)]

mod accept;
mod judge;
mod shape;

pub use accept::{accept_offer, accept_offer16, accept_offer32};
