// `row_u16`: one window's row of the u16 pass, a worker that `vertical_u16` calls when its judge has found the windows, the frame and the precision good. `fill` takes
// sixteen columns at a time, in doubles up to 32 lines, where every sum is exact, and in integers beyond; then four at a time, and the rest one by one, in integers.
// The steps of one sample in integers, `step`, `half` and `shift`, are lent to `story_text`, which tells a sum line by line; those in doubles, `weight`, `added`, `scaled`
// and `cut`, to `pixels_u16`, which sums along a row.
#![tactic(auto)]

mod arithmetic;
mod columns;
mod doubles;
mod rounding;
mod sums;

pub use arithmetic::{half, shift, step};
pub use columns::fill;
pub use doubles::{added, weight};
pub use rounding::{cut, scaled};
