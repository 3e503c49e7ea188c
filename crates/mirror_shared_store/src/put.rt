// A client's set in the place of its former one.
ghost use Rattle.std.specs.Prelude.{◌≡◌, cond};
ghost use Rattle.coefficients.specs.Answer.{number_of, window_of, line_of};
ghost use Rattle.codes.specs.Codes.{bad_code, no_codes, request_of};
ghost use Rattle.shares.specs.Store.{store_of, view_of};
ghost use Rattle.shares.specs.Scratch.{scratch_of};
ghost use Rattle.shares.specs.Machine.{next, by, puts, put_answer, scratch_after};

use codes::{axis_named, filter_named, names_nothing};
use crop_box::CropBox;
use plans::Request;
use refusal::Numbered;

// The set of a request for the 32-bit store, its window size in `window`; for No. 8 the first blank display line in `line`. Refused, the former set stays.
#[unsafe(no_mangle)]
pub extern "C" fn mirror_store_put(
    numbers: &mut [u32],
    slots: &mut [i32],
    starts: &mut [u32],
    sizes: &mut [u32],
    excesses: &mut [i64],
    client: u32,
    image_width: u32,
    image_height: u32,
    left: f64,
    top: f64,
    width: f64,
    height: f64,
    axis: u32,
    out_side: u32,
    filter: u32,
    adapts: u32,
    doubles: &mut [f64],
    firsts: &mut [u32],
    counts: &mut [u32],
    window: &mut u32,
    line: &mut u32,
) -> u32
    ensures answer { result ≡ cond (no_codes axis filter adapts) bad_code (number_of (put_answer (view_of (store_of numbers.old slots.old starts.old sizes.old excesses.old) client) (request_of image_width image_height left top width height axis out_side filter adapts) (scratch_of doubles.old firsts.old counts.old))) }
    ensures written { numbers.new ≡ cond (no_codes axis filter adapts) numbers.old (next (store_of numbers.old slots.old starts.old sizes.old excesses.old) (by client (puts (request_of image_width image_height left top width height axis out_side filter adapts) (scratch_of doubles.old firsts.old counts.old)))).numbers }
    ensures written2 { slots.new ≡ cond (no_codes axis filter adapts) slots.old (next (store_of numbers.old slots.old starts.old sizes.old excesses.old) (by client (puts (request_of image_width image_height left top width height axis out_side filter adapts) (scratch_of doubles.old firsts.old counts.old)))).slots }
    ensures written3 { starts.new ≡ cond (no_codes axis filter adapts) starts.old (next (store_of numbers.old slots.old starts.old sizes.old excesses.old) (by client (puts (request_of image_width image_height left top width height axis out_side filter adapts) (scratch_of doubles.old firsts.old counts.old)))).starts }
    ensures written4 { sizes.new ≡ cond (no_codes axis filter adapts) sizes.old (next (store_of numbers.old slots.old starts.old sizes.old excesses.old) (by client (puts (request_of image_width image_height left top width height axis out_side filter adapts) (scratch_of doubles.old firsts.old counts.old)))).sizes }
    ensures written5 { excesses.new ≡ cond (no_codes axis filter adapts) excesses.old (next (store_of numbers.old slots.old starts.old sizes.old excesses.old) (by client (puts (request_of image_width image_height left top width height axis out_side filter adapts) (scratch_of doubles.old firsts.old counts.old)))).excesses }
    ensures written6 { doubles.new ≡ cond (no_codes axis filter adapts) doubles.old (scratch_after (view_of (store_of numbers.old slots.old starts.old sizes.old excesses.old) client) (request_of image_width image_height left top width height axis out_side filter adapts) (scratch_of doubles.old firsts.old counts.old)).doubles }
    ensures written7 { firsts.new ≡ cond (no_codes axis filter adapts) firsts.old (scratch_after (view_of (store_of numbers.old slots.old starts.old sizes.old excesses.old) client) (request_of image_width image_height left top width height axis out_side filter adapts) (scratch_of doubles.old firsts.old counts.old)).firsts }
    ensures written8 { counts.new ≡ cond (no_codes axis filter adapts) counts.old (scratch_after (view_of (store_of numbers.old slots.old starts.old sizes.old excesses.old) client) (request_of image_width image_height left top width height axis out_side filter adapts) (scratch_of doubles.old firsts.old counts.old)).counts }
    ensures written9 { window.new ≡ cond (no_codes axis filter adapts) 0 (window_of (put_answer (view_of (store_of numbers.old slots.old starts.old sizes.old excesses.old) client) (request_of image_width image_height left top width height axis out_side filter adapts) (scratch_of doubles.old firsts.old counts.old))) }
    ensures written10 { line.new ≡ cond (no_codes axis filter adapts) 0 (line_of (put_answer (view_of (store_of numbers.old slots.old starts.old sizes.old excesses.old) client) (request_of image_width image_height left top width height axis out_side filter adapts) (scratch_of doubles.old firsts.old counts.old))) }
{
    if names_nothing(axis, filter, adapts) {
        *window = 0;
        *line = 0;
        return 100;
    }
    let request = Request {
        width: image_width,
        height: image_height,
        crop: CropBox {
            left,
            top,
            width,
            height,
        },
        axis: axis_named(axis),
        output: out_side,
        filter: filter_named(filter),
        adapts: adapts == 1,
    };
    let answer = shared_store::put(
        numbers, slots, starts, sizes, excesses, client, request, doubles, firsts, counts,
    );
    *window = coefficients::window_size(answer);
    *line = coefficients::line(answer);
    answer.number()
}
