// `alpha`: lists of four-component pixels of 8 bits (three colours, then alpha) whose colours are `multiplied` or `divided` by their own alpha, into another list
// or in place. The Rust's alpha/u8x4/native.rs. One colour is `colours`' subject, what a list of pixels is that of `pixel_lists`.
#![tactic(auto)]

mod divide;
mod loops;
mod multiply;
mod pixels;
mod recip;
mod u8x4;

pub use u8x4::{divide_alpha, divide_alpha_inplace, multiply_alpha, multiply_alpha_inplace};
