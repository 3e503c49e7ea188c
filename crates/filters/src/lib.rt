// `filters`: `FilterType`, the four names that a sheet or a request has; `Filter`, the three that a set is built with, and `pick`, which leads from a name to its
// filter. `support`, how far a filter reaches, and `value`, its weight at a distance: each operation is a binary64 one, rounded once, in the order of the
// Rust: not contracted and not rearranged, since either would change a last bit.
#![tactic(auto)]

mod names;

ghost use Rattle.std.specs.Prelude.{◌≡◌};
ghost use Rattle.filters.specs.Filters.{support_of, box_of, bilinear_of, catmull_rom_of, value_of};

pub use names::{pick, retired};

// A name: what a sheet says after `kind=`, and what a request asks for.
#[derive(Clone, Copy)]
pub enum FilterType {
    Box,
    Bilinear,
    CatmullRom,
    Mitchell,
}

// What a set can be built with.
#[derive(Clone, Copy)]
pub enum Filter {
    Box,
    Bilinear,
    CatmullRom,
}

// How far from its centre the filter reaches.
pub fn support(f: Filter) -> f64
    ensures answer { result ≡ support_of f }
{
    match f {
        Filter::Box => 0.5,
        Filter::Bilinear => 1.0,
        Filter::CatmullRom => 2.0,
    }
}

// 1 above -0.5 up to and including 0.5, else 0.
fn box_filter(x: f64) -> f64
    ensures answer { result ≡ box_of x }
{
    if (-0.5 < x) & (x <= 0.5) {
        return 1.0;
    }
    0.0
}

// A triangle. The distance y has its sign cleared, here and below.
fn bilinear_filter(y: f64) -> f64
    ensures answer { result ≡ bilinear_of y }
{
    if y < 1.0 {
        return 1.0 - y;
    }
    0.0
}

// A cubic with the Rust's A = -0.5: one polynomial below 1, another below 2.
fn catmul_filter(y: f64) -> f64
    ensures answer { result ≡ catmull_rom_of y }
{
    if y < 1.0 {
        return ((-0.5 + 2.0) * y - (-0.5 + 3.0)) * y * y + 1.0;
    }
    if y < 2.0 {
        return (((y - 5.0) * y + 8.0) * y - 4.0) * -0.5;
    }
    0.0
}

// The filter's weight at the distance x, any double. Box tells the sides apart, so it alone keeps the sign.
pub fn value(f: Filter, x: f64) -> f64
    ensures answer { result ≡ value_of f x }
{
    match f {
        Filter::Box => box_filter(x),
        Filter::Bilinear => bilinear_filter(numbers::abs(x)),
        Filter::CatmullRom => catmul_filter(numbers::abs(x)),
    }
}
