// `mirror_repairs`: the exports of include/mirror.h for offered repairs of weights. Each is one call of `repairs`, with document 02's number in place of the
// answer's case, and beside an offer of our own the line of No. 14. `./mirror archive` joins the crates `mirror_*`.
#![tactic(auto)]

mod accept16;
mod accept32;
mod offer16;
mod offer32;
