// The loops over the pixels of a list: a pixel is read whole, changed and written whole.
ghost use Rattle.std.specs.Prelude.{◌≡◌, ◌%◌, ℕ, length};
ghost use Rattle.lists.specs.Tab.{tab};
ghost use Rattle.pixel_lists.specs.Lists.{component_at};
ghost use Rattle.alpha_u16.specs.Pixels.{Changes};

use crate::pixels::{Pixel, load4, store4};

// Every pixel of src, changed, into dst. `op` is whatever the change does to a colour and its alpha.
pub(crate) fn change_into<F: Fn(Pixel) -> Pixel>(change: F, src: &[u16], dst: &mut [u16])
    requires callable { F.IsAlwaysCallable change }
    requires src_len { length src.now ≡ length dst.old }
    requires src_len_2 { length src.now % 4 ≡ 0 }
    ensures written { (op : ℕ → ℕ → ℕ) → Changes op (F.post change) → dst.new ≡ tab 0 (length src.now) (component_at op src.now) }
{
    let n = dst.len() / 4;
    for q in 0..n {
        let x = change(load4(src, q * 4));
        store4(dst, q * 4, x);
    }
}

// Every pixel, changed where it stands.
pub(crate) fn change_within<F: Fn(Pixel) -> Pixel>(change: F, pixels: &mut [u16])
    requires callable { F.IsAlwaysCallable change }
    requires pixels_len { length pixels.old % 4 ≡ 0 }
    ensures written { (op : ℕ → ℕ → ℕ) → Changes op (F.post change) → pixels.new ≡ tab 0 (length pixels.old) (component_at op pixels.old) }
{
    let n = pixels.len() / 4;
    for q in 0..n {
        let x = change(load4(pixels, q * 4));
        store4(pixels, q * 4, x);
    }
}
