// Number helpers on bit patterns, and the 8-bit clip: every input is answered.
ghost use Rattle.std.specs.Prelude.{◌≡◌, cond, ◌%◌, ◌^◌};
ghost use Rattle.std.specs.Float.{binary32, binary64};
ghost use Rattle.std.specs.Float.Ieee.{of_bits, to_bits};
ghost use Rattle.numbers.specs.Whole.{floor as floorF, ceil as ceilF, round_away as roundF, narrow as narrowF, is_infinite};
ghost use Rattle.integers.specs.Sums.{clipped};

// The pattern with its sign cleared.
#[unsafe(no_mangle)]
pub extern "C" fn mirror_abs(x: u64) -> u64
    ensures answer { result ≡ x % 2 ^ 63 }
{
    numbers::abs_bits(x)
}

// The largest whole number at most x.
#[unsafe(no_mangle)]
pub extern "C" fn mirror_floor(x: u64) -> u64
    ensures answer { result ≡ to_bits binary64 (floorF binary64 (of_bits binary64 x)) }
{
    numbers::floor_bits(x)
}

// The smallest whole number at least x.
#[unsafe(no_mangle)]
pub extern "C" fn mirror_ceil(x: u64) -> u64
    ensures answer { result ≡ to_bits binary64 (ceilF binary64 (of_bits binary64 x)) }
{
    numbers::ceil_bits(x)
}

// The nearest whole number, a half away from zero.
#[unsafe(no_mangle)]
pub extern "C" fn mirror_round(x: u64) -> u64
    ensures answer { result ≡ to_bits binary64 (roundF binary64 (of_bits binary64 x)) }
{
    numbers::round_bits(x)
}

// The same value as a double.
#[unsafe(no_mangle)]
pub extern "C" fn mirror_widen(x: u32) -> u64
    ensures answer { result ≡ to_bits binary64 (of_bits binary32 x) }
{
    numbers::widen_bits(x)
}

// The nearest binary32 value, ties to even; in `infinite` 1 where that is an infinity, else 0.
#[unsafe(no_mangle)]
pub extern "C" fn mirror_narrow(x: u64, infinite: &mut u32) -> u32
    ensures answer { result ≡ to_bits binary32 (narrowF (of_bits binary64 x)) }
    ensures written { infinite.new ≡ cond (is_infinite (narrowF (of_bits binary64 x))) 1 0 }
{
    let narrowed = numbers::narrow_bits(x);
    *infinite = flag(narrowed.infinite);
    narrowed.value
}

// A truth as a number.
fn flag(b: bool) -> u32
    ensures answer { result ≡ cond b 1 0 }
{
    if b {
        return 1;
    }
    0
}

// The shifted sum clipped to 0..255.
#[unsafe(no_mangle)]
pub extern "C" fn mirror_clip8(value: i32) -> u8
    ensures answer { result ≡ clipped 255 value }
{
    clips::clip8(value)
}
