// `mirror_store_calls`: the exports of include/mirror.h that restart the weight store of two clients and run a pass with a client's set. Each is one call of `share_restarts` or
// `shared_store`, with document 01's number in place of the answer's case. `./mirror archive` joins the crates `mirror_*`.
#![tactic(auto)]

mod pass;
mod restart;
