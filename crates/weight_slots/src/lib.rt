// `weight_slots`: the weights of a set that was judged, as integers in the slots of a store: weight x 2^precision rounded half away from zero where a slot is in use, else 0
// (`slot_at`). `write` is lent to the normalisers.
#![tactic(auto)]

mod slots;

pub use slots::write;
