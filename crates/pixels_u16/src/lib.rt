// `pixels_u16`: the rows of the sideways u16 pass, a worker that `sideways_u16` calls when its judge has found everything good. A window's pixel is made for several rows side
// by side, sixteen sums in doubles (twelve with three components), where windows have up to 32 lines and the sums are exact; rows that are left over, and longer
// windows, go row by row through `row_u16::fill`, for which a row of pixels is a frame of one pixel a line.
#![tactic(auto)]

mod blocks;
mod strips;
mod sums;

pub use strips::fill_rows;
