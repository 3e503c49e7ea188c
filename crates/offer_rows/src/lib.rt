// `offer_rows`: one window of our own offer, written into its slots (`offer_window`): the weights moved as the excess asks, 0 in the idle slots. The steps of a weight are
// those of `offers`. Lent to the walks over all windows.
#![tactic(auto)]

mod row;

pub use row::offer_window;
