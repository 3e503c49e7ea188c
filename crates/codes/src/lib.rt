// `codes`: the numbers of include/mirror.h that stand for a filter's name, an axis and a centring, and what each names. The crates `mirror_*` share it; each answers
// a code that names nothing itself, with `bad_code`, before it asks here.
#![tactic(auto)]

ghost use Rattle.std.specs.Prelude.{◌≡◌};
ghost use Rattle.codes.specs.Codes.{filter_of, code_of, axis_of, centring_of, no_codes};

use filters::FilterType;
use plans::Axis;

// The name of a code: 0 Box, 1 Bilinear, 2 CatmullRom, else Mitchell, whose code is 3. No caller asks with a code above 3.
pub fn filter_named(code: u32) -> FilterType
    ensures answer { result ≡ filter_of code }
{
    if code == 0 {
        return FilterType::Box;
    }
    if code == 1 {
        return FilterType::Bilinear;
    }
    if code == 2 {
        return FilterType::CatmullRom;
    }
    FilterType::Mitchell
}

// The code of a name.
pub fn filter_code(filter: FilterType) -> u32
    ensures answer { result ≡ code_of filter }
{
    match filter {
        FilterType::Box => 0,
        FilterType::Bilinear => 1,
        FilterType::CatmullRom => 2,
        FilterType::Mitchell => 3,
    }
}

// The axis of a code: 0 across, else down, whose code is 1. No caller asks with a code above 1.
pub fn axis_named(code: u32) -> Axis
    ensures answer { result ≡ axis_of code }
{
    if code == 0 {
        return Axis::Across;
    }
    Axis::Down
}

// The centring of a flag: 0 absent, else the two numbers. No caller asks with a flag above 1.
pub fn centring_named(code: u32, across: f64, down: f64) -> Option<(f64, f64)>
    ensures answer { result ≡ centring_of code across down }
{
    if code == 0 {
        return None;
    }
    Some((across, down))
}

// Whether one of the builder's three codes names nothing. Axis and flag are not looked at where the filter is retired, which is refused before all else.
pub fn names_nothing(axis: u32, filter: u32, adapts: u32) -> bool
    ensures answer { result ≡ no_codes axis filter adapts }
{
    let gone = filters::retired(filter_named(filter));
    (3 < filter) | (!gone & ((1 < axis) | (1 < adapts)))
}
