// The weight builder.
ghost use Rattle.std.specs.Prelude.{◌≡◌, cond, length};
ghost use Rattle.coefficients.specs.Answer.{number_of, window_of, line_of};
ghost use Rattle.coefficients.specs.Request.{built_of, weights_of, starts_of, sizes_of};
ghost use Rattle.codes.specs.Codes.{bad_code, no_codes, request_of};

use codes::{axis_named, filter_named, names_nothing};
use crop_box::CropBox;
use plans::Request;
use refusal::Numbered;

// The weight set of a request in the three lists, its window size in `window`; for No. 8 the first blank display line in `line`.
#[unsafe(no_mangle)]
pub extern "C" fn mirror_weights(
    image_width: u32,
    image_height: u32,
    left: f64,
    top: f64,
    width: f64,
    height: f64,
    axis: u32,
    out_side: u32,
    filter: u32,
    adapts: u32,
    weights: &mut [f64],
    starts: &mut [u32],
    sizes: &mut [u32],
    window: &mut u32,
    line: &mut u32,
) -> u32
    ensures answer { result ≡ cond (no_codes axis filter adapts) bad_code (number_of (built_of (request_of image_width image_height left top width height axis out_side filter adapts) (length weights.old) (length starts.old) (length sizes.old))) }
    ensures written { weights.new ≡ cond (no_codes axis filter adapts) weights.old (weights_of (request_of image_width image_height left top width height axis out_side filter adapts) (length weights.old) (length starts.old) (length sizes.old) weights.old) }
    ensures written2 { starts.new ≡ cond (no_codes axis filter adapts) starts.old (starts_of (request_of image_width image_height left top width height axis out_side filter adapts) (length weights.old) (length starts.old) (length sizes.old) starts.old) }
    ensures written3 { sizes.new ≡ cond (no_codes axis filter adapts) sizes.old (sizes_of (request_of image_width image_height left top width height axis out_side filter adapts) (length weights.old) (length starts.old) (length sizes.old) sizes.old) }
    ensures written4 { window.new ≡ cond (no_codes axis filter adapts) 0 (window_of (built_of (request_of image_width image_height left top width height axis out_side filter adapts) (length weights.old) (length starts.old) (length sizes.old))) }
    ensures written5 { line.new ≡ cond (no_codes axis filter adapts) 0 (line_of (built_of (request_of image_width image_height left top width height axis out_side filter adapts) (length weights.old) (length starts.old) (length sizes.old))) }
{
    if names_nothing(axis, filter, adapts) {
        *window = 0;
        *line = 0;
        return 100;
    }
    let request = Request {
        width: image_width,
        height: image_height,
        crop: CropBox {
            left,
            top,
            width,
            height,
        },
        axis: axis_named(axis),
        output: out_side,
        filter: filter_named(filter),
        adapts: adapts == 1,
    };
    let answer = coefficients::build(request, weights, starts, sizes);
    *window = coefficients::window_size(answer);
    *line = coefficients::line(answer);
    answer.number()
}
