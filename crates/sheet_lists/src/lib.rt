// `sheet_lists`: the lists of a sheet, filled from windows' lines that were scanned before: workers that `reader` calls when its judge has found the text a sheet and the
// lent lists long enough. `fill_layout` has starts, sizes and excesses, `fill_slots` the weights of either store and, in the slots past them, zeros.
#![tactic(auto)]

mod layout;
mod slots;

pub use layout::fill_layout;
pub use slots::fill_slots;
