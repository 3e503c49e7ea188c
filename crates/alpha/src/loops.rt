// The loops over the pixels of a list. A pixel is read whole, changed as a word and written whole; its alpha is also read as a byte of its own, so that a change that looks
// something up by it need not take the word apart.
ghost use Rattle.std.specs.Prelude.{◌≡◌, ◌%◌, ℕ, length};
ghost use Rattle.lists.specs.Tab.{tab};
ghost use Rattle.pixel_lists.specs.Lists.{component_at};
ghost use Rattle.alpha.specs.Words.{Changes};

use crate::pixels::{load4, store4};

// Every pixel of src, changed, into dst.
pub(crate) fn change_into<F: Fn(u32, u8) -> u32>(change: F, src: &[u8], dst: &mut [u8])
    requires callable { F.IsAlwaysCallable change }
    requires src_len { length src.now ≡ length dst.old }
    requires src_len_2 { length src.now % 4 ≡ 0 }
    ensures written { (op : ℕ → ℕ → ℕ) → Changes op (F.post change) → dst.new ≡ tab 0 (length src.now) (component_at op src.now) }
{
    let n = dst.len() / 4;
    for q in 0..n {
        let alpha = src[q * 4 + 3];
        let x = change(load4(src, q * 4), alpha);
        store4(dst, q * 4, x);
    }
}

// Every pixel, changed where it stands.
pub(crate) fn change_within<F: Fn(u32, u8) -> u32>(change: F, pixels: &mut [u8])
    requires callable { F.IsAlwaysCallable change }
    requires pixels_len { length pixels.old % 4 ≡ 0 }
    ensures written { (op : ℕ → ℕ → ℕ) → Changes op (F.post change) → pixels.new ≡ tab 0 (length pixels.old) (component_at op pixels.old) }
{
    let n = pixels.len() / 4;
    for q in 0..n {
        let alpha = pixels[q * 4 + 3];
        let x = change(load4(pixels, q * 4), alpha);
        store4(pixels, q * 4, x);
    }
}
