// The integer weights of the two stores, as one trait: what reads, writes and judges stored weights is written once, for both.
ghost use Rattle.std.specs.Prelude.{◌≡◌, ◌^◌, ◌≤◌, ◌<◌, List, ℤ, map};
ghost use Rattle.std.specs.Int.Signed.{mag};
ghost use Rattle.std.proofs.Common.{rules, sym};
ghost use Rattle.std.proofs.lemmas.List.{map-id};
ghost use Rattle.windows.specs.declared.Store.{Store};
ghost use Rattle.windows.specs.Store.{store16, store32};

use crate::{STORE16, STORE32, Store};

// a weight as a store holds it
pub trait Weight: Copy {
    // its store
    ghost STORE: { Store };

    const STORE: Store;

    // the number that a weight stands for, and those that a list of weights does
    ghost value: { Self → ℤ };

    ghost values: { List Self → List ℤ };

    // The number.
    fn number(self) -> i64
        ensures answer { result ≡ value self }
        ensures small { mag result < 2 ^ STORE.limit };

    // The weight that stands for a number. Its type holds -2^limit to 2^limit - 1.
    fn from_number(number: i64) -> Self
        requires { mag number < 2 ^ STORE.limit }
        ensures { value result ≡ number };

    // weight by weight
    ghost each: { (weights : List Self) → values weights ≡ map value weights };

    // no store has weights of more than 32 bits, or sums of more than 46
    ghost limit_small: { STORE.limit ≤ 31 };

    ghost bits_some: { 1 ≤ STORE.bits };

    ghost bits_small: { STORE.bits ≤ 46 };
}

impl Weight for i16 {
    ghost STORE = { store16 };

    const STORE: Store = STORE16;

    ghost value = { λ weight. weight };

    ghost values = { λ weights. weights };

    fn number(self) -> i64 {
        self as i64
    }

    fn from_number(number: i64) -> i16 {
        number as i16
    }

    ghost each = { λ weights. sym (map-id weights) };

    ghost limit_small = { Prim.search rules };

    ghost bits_some = { Prim.search rules };

    ghost bits_small = { Prim.search rules };
}

impl Weight for i32 {
    ghost STORE = { store32 };

    const STORE: Store = STORE32;

    ghost value = { λ weight. weight };

    ghost values = { λ weights. weights };

    fn number(self) -> i64 {
        self as i64
    }

    fn from_number(number: i64) -> i32 {
        number as i32
    }

    ghost each = { λ weights. sym (map-id weights) };

    ghost limit_small = { Prim.search rules };

    ghost bits_some = { Prim.search rules };

    ghost bits_small = { Prim.search rules };
}
