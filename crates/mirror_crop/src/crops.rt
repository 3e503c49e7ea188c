// One filter's weight, the crop and the fitting.
ghost use Rattle.std.specs.Prelude.{◌≡◌};
ghost use Rattle.codes.specs.Codes.{filter_number, filter_weight, fit_number, fit_box};
ghost use Rattle.crop_box.specs.Crop.{crop_of, number_of};

use crate::answers::fitted_box;
use codes::{centring_named, filter_named};
use crop_box::CropBox;
use refusal::{Numbered, Refusal};

// The filter's weight at x, in `weight`; a retired filter has none.
#[unsafe(no_mangle)]
pub extern "C" fn mirror_filter(filter: u32, x: f64, weight: &mut f64) -> u32
    ensures answer { result ≡ filter_number filter }
    ensures written { weight.new ≡ filter_weight filter x }
{
    *weight = 0.0;
    if 3 < filter {
        return 100;
    }
    let picked = filters::pick(filter_named(filter));
    let Some(f) = picked else {
        return Refusal::RetiredFilter.number();
    };
    *weight = filters::value(f, x);
    0
}

// Whether the box is inside the image: 0 to 5.
#[unsafe(no_mangle)]
pub extern "C" fn mirror_crop(
    image_width: u32,
    image_height: u32,
    left: f64,
    top: f64,
    width: f64,
    height: f64,
) -> u32
    ensures answer { result ≡ number_of (crop_of image_width image_height (record { left = left; top = top; width = width; height = height })) }
{
    crop_box::crop(
        image_width,
        image_height,
        CropBox {
            left,
            top,
            width,
            height,
        },
    )
    .number()
}

// The box that has the display's ratio of sides, in the four numbers.
#[unsafe(no_mangle)]
pub extern "C" fn mirror_fit(
    src_width: u32,
    src_height: u32,
    dst_width: u32,
    dst_height: u32,
    centred: u32,
    cx: f64,
    cy: f64,
    left: &mut f64,
    top: &mut f64,
    width: &mut f64,
    height: &mut f64,
) -> u32
    ensures answer { result ≡ fit_number src_width src_height dst_width dst_height centred cx cy }
    ensures written { left.new ≡ (fit_box src_width src_height dst_width dst_height centred cx cy).left }
    ensures written2 { top.new ≡ (fit_box src_width src_height dst_width dst_height centred cx cy).top }
    ensures written3 { width.new ≡ (fit_box src_width src_height dst_width dst_height centred cx cy).width }
    ensures written4 { height.new ≡ (fit_box src_width src_height dst_width dst_height centred cx cy).height }
{
    if 1 < centred {
        *left = 0.0;
        *top = 0.0;
        *width = 0.0;
        *height = 0.0;
        return 100;
    }
    let answer = crop_fit::fit_src_into_dst_size(
        src_width,
        src_height,
        dst_width,
        dst_height,
        centring_named(centred, cx, cy),
    );
    let b = fitted_box(answer);
    *left = b.left;
    *top = b.top;
    *width = b.width;
    *height = b.height;
    answer.number()
}
