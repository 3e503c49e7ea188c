// Multiplication of every pixel of a list.
ghost use Rattle.std.specs.Prelude.{◌≡◌, ◌%◌, length};
ghost use Rattle.lists.specs.Tab.{tab};
ghost use Rattle.colours.specs.Alpha.{multiplied};
ghost use Rattle.pixel_lists.specs.Lists.{component_at};

use crate::loops::{change_into, change_within};
use crate::pixels::multiplied_pixel;

// Every pixel of src into dst.
pub(crate) fn multiply_into(src: &[u8], dst: &mut [u8])
    requires src_len { length src.now ≡ length dst.old }
    requires src_len_2 { length src.now % 4 ≡ 0 }
    ensures written { dst.new ≡ tab 0 (length src.now) (component_at multiplied src.now) }
{
    change_into(|x, _| multiplied_pixel(x), src, dst);
}

// Every pixel where it stands.
pub(crate) fn multiply_within(pixels: &mut [u8])
    requires { length pixels.old % 4 ≡ 0 }
    ensures written { pixels.new ≡ tab 0 (length pixels.old) (component_at multiplied pixels.old) }
{
    change_within(|x, _| multiplied_pixel(x), pixels);
}
