// `story_text`: what the story of a pixel says (`story_text_value`), its fixed byte strings, and the writer of its camera lines. `put_lines` lays a line of text for each camera
// line of a window into a lent list, `total` gives the total of the products, by the step that `row_u16` lends. Both are lent to `story_ends`.
#![tactic(auto)]

pub mod keys;
mod lines;
mod sums;

pub use lines::put_lines;
pub use sums::total;
