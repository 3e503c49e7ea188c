// `crop_box`: which part of the camera image is shown. `crop` judges a `CropBox` against the image's sides (No. 1 to 5). `crop_fit` makes a box.
#![tactic(auto)]

mod checks;

pub use checks::crop;

// In camera lines and columns, from the upper left corner.
#[derive(Clone, Copy)]
pub struct CropBox {
    pub left: f64,
    pub top: f64,
    pub width: f64,
    pub height: f64,
}
