// `normalizer`: weights as integers, in the 16-bit or the 32-bit store. A set of doubles gets one `precision`, found from its largest weight; each weight
// in use becomes weight x 2^precision rounded half away from zero, the other slots 0; each window gets its `excess`. A set that does not fit is refused, and nothing is written.
#![tactic(auto)]

mod judge;

ghost use Rattle.std.specs.Prelude.{◌≡◌, length};
ghost use Rattle.windows.specs.Set.{layout_of, set_of};
ghost use Rattle.windows.specs.Store.{store16, store32};
ghost use Rattle.weight_precision.specs.Precision.{precision};
ghost use Rattle.normalizer.specs.Answer.{normalized_of, written_of, excesses_of};

use excesses::write_excesses;
use refusal::Refusal;
use weight_slots::write;
use windows::{Store, Weight};

// the 16-bit store: i16 weights, sums in 32 bits. A rule of the project asks for the two types and their constants, so they stay two (`new_decides`, proofs/Sure.antt): one type over a
// `Weight` would need a field of no value beside the precision. `new` finds a precision without storing a set
#[derive(Drop)]
pub struct Normalizer16 {
    pub precision: u32,
}

impl Normalizer16 {
    pub const BITS: u32 = 22;

    pub const LIMIT: u32 = 15;

    const STORE: Store = Store {
        bits: Self::BITS,
        limit: Self::LIMIT,
    };

    // The precision that the weights get, for any doubles.
    pub fn new(weights: &[f64]) -> Self
        ensures answer { result.precision ≡ precision store16 weights.now }
    {
        Normalizer16 {
            precision: weight_precision::precision(weights, Self::STORE),
        }
    }
}

// the 32-bit store: i32 weights, sums in 64 bits; the same
#[derive(Drop)]
pub struct Normalizer32 {
    pub precision: u32,
}

impl Normalizer32 {
    pub const BITS: u32 = 46;

    pub const LIMIT: u32 = 31;

    const STORE: Store = Store {
        bits: Self::BITS,
        limit: Self::LIMIT,
    };

    // The precision that the weights get, for any doubles.
    pub fn new(weights: &[f64]) -> Self
        ensures answer { result.precision ≡ precision store32 weights.now }
    {
        Normalizer32 {
            precision: weight_precision::precision(weights, Self::STORE),
        }
    }
}

// The weights of a set in a store with their excesses, and their precision, or the number that refuses them; for any numbers and lists. The store is that of the weights' type.
fn normalize_in<W: Weight>(
    store: Store,
    lines: u32,
    window_size: u32,
    weights: &[f64],
    starts: &[u32],
    sizes: &[u32],
    out: &mut [W],
    excesses: &mut [i64],
) -> Result<u32, Refusal>
    requires { store ≡ W.STORE }
    ensures answer { result ≡ normalized_of W.STORE (set_of (layout_of lines window_size starts.now sizes.now) weights.now) (length out.old) (length excesses.old) }
    ensures written { W.values out.new ≡ written_of W.STORE (set_of (layout_of lines window_size starts.now sizes.now) weights.now) (length excesses.old) (W.values out.old) }
    ensures written2 { excesses.new ≡ excesses_of W.STORE (set_of (layout_of lines window_size starts.now sizes.now) weights.now) (length out.old) excesses.old }
{
    let p = judge::judge(
        store,
        lines,
        window_size,
        weights,
        starts,
        sizes,
        out.len(),
        excesses.len(),
    )?;
    write(p, window_size, weights, sizes, out);
    write_excesses(p, window_size, out, sizes, excesses);
    Ok(p)
}

// The same in the store of the weights' type.
pub fn normalize<W: Weight>(
    lines: u32,
    window_size: u32,
    weights: &[f64],
    starts: &[u32],
    sizes: &[u32],
    out: &mut [W],
    excesses: &mut [i64],
) -> Result<u32, Refusal>
    ensures answer { result ≡ normalized_of W.STORE (set_of (layout_of lines window_size starts.now sizes.now) weights.now) (length out.old) (length excesses.old) }
    ensures written { W.values out.new ≡ written_of W.STORE (set_of (layout_of lines window_size starts.now sizes.now) weights.now) (length excesses.old) (W.values out.old) }
    ensures written2 { excesses.new ≡ excesses_of W.STORE (set_of (layout_of lines window_size starts.now sizes.now) weights.now) (length out.old) excesses.old }
{
    normalize_in(
        W::STORE,
        lines,
        window_size,
        weights,
        starts,
        sizes,
        out,
        excesses,
    )
}

// The same in the 16-bit store, whose bits and limit are those of `Normalizer16`.
pub fn normalize16(
    lines: u32,
    window_size: u32,
    weights: &[f64],
    starts: &[u32],
    sizes: &[u32],
    out: &mut [i16],
    excesses: &mut [i64],
) -> Result<u32, Refusal>
    ensures answer { result ≡ normalized_of store16 (set_of (layout_of lines window_size starts.now sizes.now) weights.now) (length out.old) (length excesses.old) }
    ensures written { out.new ≡ written_of store16 (set_of (layout_of lines window_size starts.now sizes.now) weights.now) (length excesses.old) out.old }
    ensures written2 { excesses.new ≡ excesses_of store16 (set_of (layout_of lines window_size starts.now sizes.now) weights.now) (length out.old) excesses.old }
{
    normalize_in(
        Normalizer16::STORE,
        lines,
        window_size,
        weights,
        starts,
        sizes,
        out,
        excesses,
    )
}

// The same in the 32-bit store, with those of `Normalizer32`.
pub fn normalize32(
    lines: u32,
    window_size: u32,
    weights: &[f64],
    starts: &[u32],
    sizes: &[u32],
    out: &mut [i32],
    excesses: &mut [i64],
) -> Result<u32, Refusal>
    ensures answer { result ≡ normalized_of store32 (set_of (layout_of lines window_size starts.now sizes.now) weights.now) (length out.old) (length excesses.old) }
    ensures written { out.new ≡ written_of store32 (set_of (layout_of lines window_size starts.now sizes.now) weights.now) (length excesses.old) out.old }
    ensures written2 { excesses.new ≡ excesses_of store32 (set_of (layout_of lines window_size starts.now sizes.now) weights.now) (length out.old) excesses.old }
{
    normalize_in(
        Normalizer32::STORE,
        lines,
        window_size,
        weights,
        starts,
        sizes,
        out,
        excesses,
    )
}
