// Division of every pixel of a list. The table of reciprocals is lent, since a constant indexed by name is copied at each use.
ghost use Rattle.std.specs.Prelude.{◌≡◌, ◌%◌, ◌≤◌, length};
ghost use Rattle.lists.specs.Tab.{tab};
ghost use Rattle.colours.specs.Alpha.{divided, reciprocal};
ghost use Rattle.pixel_lists.specs.Lists.{component_at};

use crate::loops::{change_into, change_within};
use crate::pixels::divided_pixel;

// The table's entry for alpha.
fn reciprocal_of(alpha: u8, reciprocals: &[u32; 256]) -> u32
    requires { reciprocals.now ≡ tab 0 256 reciprocal }
    ensures answer { result ≡ reciprocal alpha }
    ensures small { result ≤ 65280 }
{
    reciprocals[alpha as usize]
}

// Every pixel of src into dst.
pub(crate) fn divide_into(src: &[u8], dst: &mut [u8], reciprocals: &[u32; 256])
    requires src_len { length src.now ≡ length dst.old }
    requires src_len_2 { length src.now % 4 ≡ 0 }
    requires reciprocals_value { reciprocals.now ≡ tab 0 256 reciprocal }
    ensures written { dst.new ≡ tab 0 (length src.now) (component_at divided src.now) }
{
    change_into(
        |x, alpha| divided_pixel(x, reciprocal_of(alpha, reciprocals)),
        src,
        dst,
    );
}

// Every pixel where it stands.
pub(crate) fn divide_within(pixels: &mut [u8], reciprocals: &[u32; 256])
    requires pixels_len { length pixels.old % 4 ≡ 0 }
    requires reciprocals_value { reciprocals.now ≡ tab 0 256 reciprocal }
    ensures written { pixels.new ≡ tab 0 (length pixels.old) (component_at divided pixels.old) }
{
    change_within(
        |x, alpha| divided_pixel(x, reciprocal_of(alpha, reciprocals)),
        pixels,
    );
}
