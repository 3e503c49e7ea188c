// `mirror_sideways`: the export of include/mirror.h for the sideways pass. It is one call of `sideways_u16` and says what that call says, with the number in place of the
// answer's case. `./mirror archive` joins the crates `mirror_*`.
#![tactic(auto)]

mod passes;
