// Fitting: its refusals, a zero side, and else the box of the display's ratio of sides.
ghost use Rattle.std.specs.Prelude.{◌≡◌};
ghost use Rattle.crop_fit.specs.Fit.{fit_of, large_sides_value, zero_side_value, fitted_box};

use crate::clamp01;
use crate::ratios::ratio_box;
use crop_box::CropBox;
use numbers::finite;
use refusal::Refusal;

// No. 1: a side above 8,192. A side of 0 is no refusal here.
fn large_sides(src_width: u32, src_height: u32, dst_width: u32, dst_height: u32) -> bool
    ensures answer { result ≡ large_sides_value src_width src_height dst_width dst_height }
{
    (8192 < src_width) | (8192 < src_height) | (8192 < dst_width) | (8192 < dst_height)
}

// Any side is 0.
fn zero_side(src_width: u32, src_height: u32, dst_width: u32, dst_height: u32) -> bool
    ensures answer { result ≡ zero_side_value src_width src_height dst_width dst_height }
{
    (src_width == 0) | (src_height == 0) | (dst_width == 0) | (dst_height == 0)
}

// The box of the display's ratio of sides, for a centring that is clamped; left 0, top 0 and the source's sides where any side is 0.
fn fitted(
    src_width: u32,
    src_height: u32,
    dst_width: u32,
    dst_height: u32,
    across: f64,
    down: f64,
) -> CropBox
    ensures answer { result ≡ fitted_box src_width src_height dst_width dst_height across down }
{
    let width = src_width as f64;
    let height = src_height as f64;
    if zero_side(src_width, src_height, dst_width, dst_height) {
        return CropBox {
            left: 0.0,
            top: 0.0,
            width: width,
            height: height,
        };
    }
    let required = dst_width as f64 / dst_height as f64;
    ratio_box(width, height, required, across, down)
}

// The fitted box, or the first refusal that applies, for any sides and any centring. Absent centring means 0.5, 0.5 and cannot be bad.
pub fn fit_src_into_dst_size(
    src_width: u32,
    src_height: u32,
    dst_width: u32,
    dst_height: u32,
    centring: Option<(f64, f64)>,
) -> Result<CropBox, Refusal>
    ensures answer { result ≡ fit_of src_width src_height dst_width dst_height centring }
{
    if large_sides(src_width, src_height, dst_width, dst_height) {
        return Err(Refusal::BadSide);
    }
    match centring {
        None => Ok(fitted(src_width, src_height, dst_width, dst_height, 0.5, 0.5)),
        Some((across, down)) => {
            if !(finite(across) & finite(down)) {
                return Err(Refusal::NotFinite);
            }
            Ok(fitted(
                src_width,
                src_height,
                dst_width,
                dst_height,
                clamp01(across),
                clamp01(down),
            ))
        }
    }
}
