// `finite_f32`: which numbers of the f32 pass are finite. No. 12 of document 01 for `vertical_f32`: whether every weight in use (`weights_fit`) and every sample in use
// (`samples_fit`) fits. And of what the pass writes: samples carried into lanes while they are at hand (`sixteen`, `rest`), whether these say that all are finite
// (`all_four`, `is_zero`), and how many are infinite (`counted`).
#![tactic(auto)]

mod count;
mod samples;
mod scan;
mod weights;
mod written;

pub use count::counted;
pub use samples::{rest, samples_fit};
pub use scan::is_zero;
pub use weights::weights_fit;
pub use written::{all_four, sixteen};
