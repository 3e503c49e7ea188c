// `weight_precision`: what a set of doubles is in a store of integers. `precision` finds the one that all its weights get, from the largest; `some_not_finite` and `unstorable`
// say whether they serve at it (No. 9); `in_use` and `scaled` give one slot's weight at it, rounded half away from zero. Lent to the normalisers.
#![tactic(auto)]

mod finding;
mod serving;

pub use finding::{precision, scaled};
pub use serving::{in_use, some_not_finite, unstorable};
