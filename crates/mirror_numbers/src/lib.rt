// `mirror_numbers`: the exports of include/mirror.h for the number helpers on bit patterns and the 8-bit clip. Each is one call of `numbers` or `clips`, and
// says what that call says. `./mirror archive` joins the crates `mirror_*` into one static library.
#![tactic(auto)]

mod helpers;
