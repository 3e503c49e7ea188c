// The precision of a stored set.
ghost use Rattle.std.specs.Prelude.{◌≡◌, not};
ghost use Rattle.windows.specs.Store.{bad_precision};

use crate::Store;

// Whether a precision is 4 to the store's largest, for any numbers. The largest is one less than `bits`.
pub fn precision_fits(store: Store, precision: u32) -> bool
    ensures answer { result ≡ not (bad_precision store precision) }
{
    !((precision < 4) | (store.bits <= precision))
}
