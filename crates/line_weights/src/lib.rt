// `line_weights`: the camera lines about one centre and their weights: the range, zeros dropped at both ends, the running total, the division by it.
// For `plan_windows`, which has a row of slots for each window.
#![tactic(auto)]

mod ranges;
mod weights;

pub use ranges::{range_end, range_start};
pub use weights::{finish, lead, trim, weigh};

// A camera line and its weight, before the division.
#[derive(Drop)]
pub struct Weighed {
    pub line: windows::CameraLine,
    pub weight: f64,
}
