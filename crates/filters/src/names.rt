// From a name to a filter. Mitchell is retired: sheets in cars have the name, and no new set is built with it.
ghost use Rattle.std.specs.Prelude.{◌≡◌};
ghost use Rattle.filters.specs.Names.{picked_of, is_retired};

use crate::{Filter, FilterType};

// The filter that a set of this name is built with, or none.
pub fn pick(kind: FilterType) -> Option<Filter>
    ensures answer { result ≡ picked_of kind }
{
    match kind {
        FilterType::Box => Some(Filter::Box),
        FilterType::Bilinear => Some(Filter::Bilinear),
        FilterType::CatmullRom => Some(Filter::CatmullRom),
        FilterType::Mitchell => None,
    }
}

// Whether no new set is built with the name: No. 16, before every other number.
pub fn retired(kind: FilterType) -> bool
    ensures answer { result ≡ is_retired kind }
{
    match kind {
        FilterType::Box => false,
        FilterType::Bilinear => false,
        FilterType::CatmullRom => false,
        FilterType::Mitchell => true,
    }
}
