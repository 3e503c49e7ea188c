// The box of a ratio of sides, placed in the source: operation by operation as in crop_box.rs of the Rust.
ghost use Rattle.std.specs.Prelude.{◌≡◌};
ghost use Rattle.crop_fit.specs.Fit.{placed_box, ratio_box_value};

use crop_box::CropBox;

// 2^-52, the step from 1 to the next double.
const EPSILON: f64 = 2.220446049250313e-16;

// A box of the given extent in a source of the given sides.
fn placed(
    width: f64,
    height: f64,
    crop_width: f64,
    crop_height: f64,
    across: f64,
    down: f64,
) -> CropBox
    ensures answer { result ≡ placed_box width height crop_width crop_height across down }
{
    CropBox {
        left: (width - crop_width) * across,
        top: (height - crop_height) * down,
        width: crop_width,
        height: crop_height,
    }
}

// The box with the ratio that is required: the source itself where its ratio is within 2^-52, else its sides or its top and bottom cut.
pub(crate) fn ratio_box(width: f64, height: f64, required: f64, across: f64, down: f64) -> CropBox
    ensures answer { result ≡ ratio_box_value width height required across down }
{
    let ratio = width / height;
    if numbers::abs(ratio - required) < EPSILON {
        return placed(width, height, width, height, across, down);
    }
    if ratio >= required {
        return placed(width, height, required * height, height, across, down);
    }
    placed(width, height, width, width / required, across, down)
}
