// `mirror_crop`: the exports of include/mirror.h for one filter's weight, the crop and the fitting. Each is one call of `filters` or `crop_box`, with document
// 01's number in place of the answer's case and `codes` for what a number names; a `&mut f64` is a pointer. `./mirror archive` joins the crates `mirror_*`.
#![tactic(auto)]

mod answers;
mod crops;
