// `mirror_passes_u8`: the export of include/mirror.h for the u8 pass. It is one call of `vertical_u8` and says what that call says, with the number in place of the
// answer's case. `./mirror archive` joins the crates `mirror_*`.
#![tactic(auto)]

mod passes;
