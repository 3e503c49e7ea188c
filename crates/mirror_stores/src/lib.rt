// `mirror_stores`: the exports of include/mirror.h for the two normalisers. Each is one call of `normalizer` and says what that call says, with document 01's
// number in place of the answer's case and the precision beside it. `./mirror archive` joins the crates `mirror_*`.
#![tactic(auto)]

mod stores;
