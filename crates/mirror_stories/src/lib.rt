// `mirror_stories`: the export of include/mirror.h for the story of a pixel. It is one call of `story`, with document 01's number in place of the answer's case and the
// text's length beside it. `./mirror archive` joins the crates `mirror_*`.
#![tactic(auto)]

mod stories;
