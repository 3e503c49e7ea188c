// The range of camera lines about a centre, end excluded.
ghost use Rattle.std.specs.Prelude.{◌≡◌, ◌^◌};
ghost use Rattle.floats.specs.Within.{Within};
ghost use Rattle.numbers.specs.Window.{start as start_of, stop as stopOf};

use windows::CameraLine;

// The floor of centre - radius, at least 0.
pub fn range_start(centre: f64, radius: f64) -> CameraLine
    requires fact_1 { Within centre (2 ^ 30) }
    requires fact_2 { Within radius (2 ^ 30) }
    ensures answer { result.0 ≡ start_of centre radius }
{
    let d = centre - radius;
    if d > 0.0 {
        return CameraLine(numbers::floor(d) as u32);
    }
    CameraLine(0)
}

// The ceiling of centre + radius, at most the side.
pub fn range_end(centre: f64, radius: f64, side: u32) -> CameraLine
    requires fact_1 { Within centre (2 ^ 30) }
    requires fact_2 { Within radius (2 ^ 30) }
    ensures answer { result.0 ≡ stopOf side centre radius }
{
    let e = numbers::ceil(centre + radius) as u32;
    if e < side {
        CameraLine(e)
    } else {
        CameraLine(side)
    }
}
