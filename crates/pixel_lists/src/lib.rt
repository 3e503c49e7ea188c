// `pixel_lists`: what a list of four-component pixels (three colours, then alpha) is, for components of any width: which lists are refused, and what an
// operation answers and writes. For `alpha` and `alpha_u16`.
#![tactic(auto)]

ghost use Rattle.std.specs.Prelude.{◌≡◌};
ghost use Rattle.pixel_lists.specs.Lists.{bad_lists_value};

// Whether two lists are not equally long, or no multiple of four components long: for lists of any width.
pub fn bad_lists(src: usize, dst: usize) -> bool
    ensures answer { result ≡ bad_lists_value src dst }
{
    (src != dst) | (src % 4 != 0)
}
