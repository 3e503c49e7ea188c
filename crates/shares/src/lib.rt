// `shares`: one weight store that two clients share, as a machine: a `Store`, a call, the store and the answer after it. The contracts of `shared_store` are its
// steps. Each client has a share of the slots and may put in one set; what it gets back depends on its own calls and its share alone (`apart`). No code stands here.
#![tactic(auto)]

use refusal::Refusal;
