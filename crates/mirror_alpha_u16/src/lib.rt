// `mirror_alpha_u16`: the exports of include/mirror.h for u16x4 pixels and their alpha. Each is one call of `alpha_u16` and says what that call says, with document
// 01's number in place of the answer's case. A slice is a pointer and a count of elements. `./mirror archive` joins the crates `mirror_*`.
#![tactic(auto)]

mod pixels;
