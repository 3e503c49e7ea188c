// `colours`: one colour `multiplied` and `divided` by one alpha, 8 bits. The Rust's alpha/common.rs.
#![tactic(auto)]

mod common;

pub use common::{clipped_quotient, div_and_clip, mul_div_255, product};
