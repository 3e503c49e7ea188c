// `mirror_shared_store`: the export of include/mirror.h that puts a set into the weight store of two clients. It is one call of `shared_store`, with document 01's number in
// place of the answer's case and `codes` for what a number names. The store is five lists that the caller keeps and lends with every call; the other two calls are
// `mirror_store_calls`. `./mirror archive` joins the crates `mirror_*`.
#![tactic(auto)]

mod put;
