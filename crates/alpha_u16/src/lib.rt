// `alpha_u16`: lists of four-component pixels of 16 bits (three colours, then alpha) whose colours are `multiplied` or `divided` by their own alpha, into another
// list or in place. One colour is `colours_u16`'s subject, what a list of pixels is that of `pixel_lists`.
#![tactic(auto)]

mod loops;
mod pixels;
mod u16x4;

pub use u16x4::{divide_alpha, divide_alpha_inplace, multiply_alpha, multiply_alpha_inplace};
