// From a request to the plan of its windows, or its refusal, No. 16, then 1 to 6.
ghost use Rattle.std.specs.Prelude.{◌≡◌, ◌≤◌, ◌^◌};
ghost use Rattle.floats.specs.Within.{Within};
ghost use Rattle.numbers.specs.Window.{window};
ghost use Rattle.plans.specs.Plan.{edge_of, filter_scale_of, plan_with_value, plan_of};

use crate::{Axis, Edge, Plan, Request};
use filters::Filter;
use refusal::Refusal;

// The crop along the axis: the image side, the near edge and the far edge.
fn along(axis: Axis, width: u32, height: u32, b: crop_box::CropBox) -> Edge
    ensures answer { result ≡ edge_of axis width height b }
{
    match axis {
        Axis::Across => Edge {
            side: width,
            near: b.left,
            far: b.left + b.width,
        },
        Axis::Down => Edge {
            side: height,
            near: b.top,
            far: b.top + b.height,
        },
    }
}

// The larger of the scale and 1 if the kernel adapts, else 1.
fn filter_scale(adapts: bool, scale: f64) -> f64
    ensures answer { result ≡ filter_scale_of adapts scale }
{
    if adapts {
        if 1.0 < scale {
            return scale;
        }
    }
    1.0
}

// Twice the radius raised to a whole number, and one.
fn window_size(radius: f64) -> u32
    requires { Within radius (2 ^ 14) }
    ensures answer { (result ≡ window radius) × (result ≤ 32769) }
{
    numbers::ceil(radius) as u32 * 2 + 1
}

// The plan with a filter, or the refusal: of the output side, then the crop's own, then of the scale.
fn plan_with(f: Filter, request: Request) -> Result<Plan, Refusal>
    ensures answer { result ≡ plan_with_value f request }
{
    let output = request.output;
    if (output < 1) | (8192 < output) {
        return Err(Refusal::BadSide);
    }
    // A rule of the project names the form of this place: the crop's answer is taken apart, and its refusal leaves by the other branch. `?` would say it too.
    let answer = crop_box::crop(request.width, request.height, request.crop);
    let inside = match answer {
        Ok(inside) => inside,
        Err(refusal) => return Err(refusal),
    };
    let axis = request.axis;
    let e = along(axis, request.width, request.height, inside);
    let scale = (e.far - e.near) / (output as f64);
    if scale <= 0.0 {
        return Err(Refusal::NoScale);
    }
    let wide = filter_scale(request.adapts, scale);
    let radius = filters::support(f) * wide;
    let size = window_size(radius);
    Ok(Plan {
        filter: f,
        side: e.side,
        output: output,
        near: e.near,
        scale: scale,
        recip: 1.0 / wide,
        radius: radius,
        window: size,
    })
}

// The plan with the filter that the request names. A retired name is refused before anything else is looked at.
pub fn prepare(request: Request) -> Result<Plan, Refusal>
    ensures answer { result ≡ plan_of request }
{
    let Some(f) = filters::pick(request.filter) else {
        return Err(Refusal::RetiredFilter);
    };
    plan_with(f, request)
}
