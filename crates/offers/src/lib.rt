// `offers`: repairs of the weights of one window. Whether offered weights are one (`window_refused`, a test of `Repair`), whether the window has one (`window_lacks`), and the
// steps of a single weight, by which `offer_rows` writes the weights that we offer ourselves. Lent to the walks over all windows.
#![tactic(auto)]

mod judge;
mod own;
mod steps;

pub use judge::window_refused;
pub use own::window_lacks;
pub use steps::{can_go, slot, way};
