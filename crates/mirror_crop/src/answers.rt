// The box beside a fitting's number.
ghost use Rattle.std.specs.Prelude.{◌≡◌};
ghost use Rattle.crop_fit.specs.Fit.{box_of};

use crop_box::CropBox;
use refusal::Refusal;

// The fitted box, or four zeros.
pub(crate) fn fitted_box(answer: Result<CropBox, Refusal>) -> CropBox
    ensures answer { result ≡ box_of answer }
{
    match answer {
        Ok(b) => b,
        Err(_) => CropBox {
            left: 0.0,
            top: 0.0,
            width: 0.0,
            height: 0.0,
        },
    }
}
