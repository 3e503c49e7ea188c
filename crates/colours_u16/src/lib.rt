// `colours_u16`: one colour `multiplied` and `divided` by one alpha, 16 bits. The 16-bit half of the Rust's alpha/common.rs, with the reciprocal worked out and no
// table. For `alpha_u16`.
#![tactic(auto)]

mod common;

pub use common::{div_and_clip16, mul_div_65535, reciprocal};
