// `mirror_passes`: the exports of include/mirror.h for the vertical passes. Each is one call of `vertical_u16` or `vertical_f32` and says what that call says,
// with document 01's number in place of the answer's case. `./mirror archive` joins the crates `mirror_*`.
#![tactic(auto)]

mod passes;
