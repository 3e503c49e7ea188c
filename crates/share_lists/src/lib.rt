// `share_lists`: the five lists of a shared store, judged and written. Whether the store is `closed` to a client, and whether a set that it puts in is `barred`; the
// `Place` where its set stands; and a new set's numbers, starts and sizes laid in its part. Workers of `shared_store`.
#![tactic(auto)]

mod finding;
mod judging;
mod keeping;
mod places;

pub use finding::find;
pub use judging::{barred, lists_misfit, too_few};
pub use keeping::keep;
pub use places::{line_base, share, slot_base};

// Where a set stands: its numbers, its slots `from` .. `to`, its starts, sizes and excesses `head` .. `tail`.
#[derive(Drop)]
pub struct Place {
    pub lines: u32,
    pub window: u32,
    pub precision: u32,
    pub from: usize,
    pub to: usize,
    pub head: usize,
    pub tail: usize,
}
