// `offer_windows`: offers taken through all windows of a stored set that was judged. Whether offered weights leave some window unrepaired (`some_refused`), the first window that
// has no offer (`first_lacking`), our own offer written (`write_offers`), and an offer taken over: the weights in use replaced (`replace`), the excesses set to 0 (`clear`).
// Lent to `accept_offers` and `make_offers`.
#![tactic(auto)]

mod slots;
mod taken;
mod walk;

pub use slots::{replace, write_offers};
pub use taken::clear;
pub use walk::{first_lacking, some_refused};
