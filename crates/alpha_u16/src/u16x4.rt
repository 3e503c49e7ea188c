// Lists of pixels of four 16-bit components, as `alpha` has them of 8 bits.
ghost use Rattle.std.specs.Prelude.{◌≡◌};
ghost use Rattle.pixel_lists.specs.Lists.{applied_to};
ghost use Rattle.alpha_u16.specs.Lists.{multiplied_list, divided_list};

use crate::loops::{change_into, change_within};
use crate::pixels::{divided_pixel, multiplied_pixel};
use pixel_lists::bad_lists;
use refusal::Refusal;

// Each pixel of src, its colours multiplied by its alpha, into dst.
pub fn multiply_alpha(src: &[u16], dst: &mut [u16]) -> Result<(), Refusal>
    ensures answer { result ≡ applied_to src.now dst.old }
    ensures written { dst.new ≡ multiplied_list src.now dst.old }
{
    if bad_lists(src.len(), dst.len()) {
        return Err(Refusal::DoesNotFit);
    }
    change_into(multiplied_pixel, src, dst);
    Ok(())
}

// Each pixel's colours multiplied by its alpha, in place.
pub fn multiply_alpha_inplace(pixels: &mut [u16]) -> Result<(), Refusal>
    ensures answer { result ≡ applied_to pixels.old pixels.old }
    ensures written { pixels.new ≡ multiplied_list pixels.old pixels.old }
{
    if bad_lists(pixels.len(), pixels.len()) {
        return Err(Refusal::DoesNotFit);
    }
    change_within(multiplied_pixel, pixels);
    Ok(())
}

// Each pixel of src, its colours divided by its alpha, into dst.
pub fn divide_alpha(src: &[u16], dst: &mut [u16]) -> Result<(), Refusal>
    ensures answer { result ≡ applied_to src.now dst.old }
    ensures written { dst.new ≡ divided_list src.now dst.old }
{
    if bad_lists(src.len(), dst.len()) {
        return Err(Refusal::DoesNotFit);
    }
    change_into(divided_pixel, src, dst);
    Ok(())
}

// Each pixel's colours divided by its alpha, in place.
pub fn divide_alpha_inplace(pixels: &mut [u16]) -> Result<(), Refusal>
    ensures answer { result ≡ applied_to pixels.old pixels.old }
    ensures written { pixels.new ≡ divided_list pixels.old pixels.old }
{
    if bad_lists(pixels.len(), pixels.len()) {
        return Err(Refusal::DoesNotFit);
    }
    change_within(divided_pixel, pixels);
    Ok(())
}
