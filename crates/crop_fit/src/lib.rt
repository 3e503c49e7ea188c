// `crop_fit`: the part of the camera image that has the display's ratio of sides, placed by a centring (`fit_src_into_dst_size`). `crop_box` judges it.
#![tactic(auto)]

mod fitting;
mod ratios;

ghost use Rattle.std.specs.Prelude.{◌≡◌};
ghost use Rattle.crop_fit.specs.Fit.{clamped};

pub use fitting::fit_src_into_dst_size;

// x clamped to 0..1; minus zero stays as it is.
fn clamp01(x: f64) -> f64
    ensures answer { result ≡ clamped x }
{
    if x < 0.0 {
        return 0.0;
    }
    if 1.0 < x {
        return 1.0;
    }
    x
}
