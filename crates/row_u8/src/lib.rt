// `row_u8`: one window's row of the u8 pass, a worker that `vertical_u8` calls when its judge has found the windows, the frame, the precision and the weights good. `fill`
// takes thirty-two columns at a time and the columns left over one by one, in i32; what it asks of the weights' sizes keeps every sum from wrapping.
#![tactic(auto)]

mod arithmetic;
mod columns;
mod sums;

pub use columns::fill;
