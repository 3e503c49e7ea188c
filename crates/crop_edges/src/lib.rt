// `crop_edges`: an edge of the crop as a person writes it. `read_edge` takes a decimal of up to 15 digits, which it rounds once, or `0x` and the
// 16 hexadecimal digits of a double's pattern.
#![tactic(auto)]

mod decimal;
mod digits;
mod pattern;

ghost use Rattle.std.specs.Prelude.{◌≡◌};
ghost use Rattle.crop_edges.specs.Edge.{edge_of};

// The edge that a text stands for, if it stands for one.
pub fn read_edge(text: &[u8]) -> Option<f64>
    ensures answer { result ≡ edge_of text.now }
{
    if pattern::is_pattern(text) {
        return Some(pattern::of_pattern(text));
    }
    if decimal::is_decimal(text) {
        return Some(decimal::of_decimal(text));
    }
    None
}
