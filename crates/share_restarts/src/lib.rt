// `share_restarts`: a restart of the shared store, which is common to both clients: `restart` gives each a share of the slots and empties both. Its contract is a step of the machine
// of `shares`; the other two calls, and the store's lists, are `shared_store`'s.
#![tactic(auto)]

mod restarting;

pub use restarting::restart;
