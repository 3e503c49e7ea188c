// `plan_windows`: the windows of a plan, written line by line into lent lists: starts, sizes and weights. For `coefficients`, which judges the lists first.
#![tactic(auto)]

mod lines;

pub use lines::all_windows;

// The window of a display line, and the total of its weights before the division.
#[derive(Drop)]
pub struct Span {
    pub window: windows::Window,
    pub total: f64,
}
