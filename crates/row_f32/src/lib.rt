// `row_f32`: one window's row of the f32 pass, a worker that `vertical_f32` calls when its judge has found the windows, the frame, the weights and the samples good. `fill`
// sums sixteen columns at a time and the columns left over one by one, in doubles, and narrows each sum to the nearest f32.
#![tactic(auto)]

mod columns;
mod narrowing;
mod sums;

pub use columns::fill;
