// `promises`: what the customer was promised, stated over the definitions that the contracts cite: each statement in `specs/`, its proof in `proofs/`.
// No functions.
#![tactic(auto)]
