// The two normalisers: the weights of a set as integers in `out`, each window's excess in `excesses`, their precision in `precision`.
ghost use Rattle.std.specs.Prelude.{◌≡◌, length};
ghost use Rattle.windows.specs.Set.{layout_of, set_of};
ghost use Rattle.windows.specs.Store.{store16, store32};
ghost use Rattle.normalizer.specs.Answer.{normalized_of, written_of, excesses_of, number_of, precision_in};

use refusal::Numbered;

// In the 16-bit store: 0, No. 1, 7, 9 or 10.
#[unsafe(no_mangle)]
pub extern "C" fn mirror_normalize16(
    lines: u32,
    window: u32,
    weights: &[f64],
    starts: &[u32],
    sizes: &[u32],
    out: &mut [i16],
    excesses: &mut [i64],
    precision: &mut u32,
) -> u32
    ensures answer { result ≡ number_of (normalized_of store16 (set_of (layout_of lines window starts.now sizes.now) weights.now) (length out.old) (length excesses.old)) }
    ensures written { out.new ≡ written_of store16 (set_of (layout_of lines window starts.now sizes.now) weights.now) (length excesses.old) out.old }
    ensures written2 { excesses.new ≡ excesses_of store16 (set_of (layout_of lines window starts.now sizes.now) weights.now) (length out.old) excesses.old }
    ensures written3 { precision.new ≡ precision_in (normalized_of store16 (set_of (layout_of lines window starts.now sizes.now) weights.now) (length out.old) (length excesses.old)) }
{
    let answer = normalizer::normalize16(lines, window, weights, starts, sizes, out, excesses);
    *precision = answer.unwrap_or(0);
    answer.number()
}

// In the 32-bit store.
#[unsafe(no_mangle)]
pub extern "C" fn mirror_normalize32(
    lines: u32,
    window: u32,
    weights: &[f64],
    starts: &[u32],
    sizes: &[u32],
    out: &mut [i32],
    excesses: &mut [i64],
    precision: &mut u32,
) -> u32
    ensures answer { result ≡ number_of (normalized_of store32 (set_of (layout_of lines window starts.now sizes.now) weights.now) (length out.old) (length excesses.old)) }
    ensures written { out.new ≡ written_of store32 (set_of (layout_of lines window starts.now sizes.now) weights.now) (length excesses.old) out.old }
    ensures written2 { excesses.new ≡ excesses_of store32 (set_of (layout_of lines window starts.now sizes.now) weights.now) (length out.old) excesses.old }
    ensures written3 { precision.new ≡ precision_in (normalized_of store32 (set_of (layout_of lines window starts.now sizes.now) weights.now) (length out.old) (length excesses.old)) }
{
    let answer = normalizer::normalize32(lines, window, weights, starts, sizes, out, excesses);
    *precision = answer.unwrap_or(0);
    answer.number()
}
