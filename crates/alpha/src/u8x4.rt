// Lists of pixels, as in the Rust's alpha/u8x4/native.rs.
ghost use Rattle.std.specs.Prelude.{◌≡◌};
ghost use Rattle.pixel_lists.specs.Lists.{applied_to};
ghost use Rattle.alpha.specs.Lists.{multiplied_list, divided_list};

use crate::divide::{divide_into, divide_within};
use crate::multiply::{multiply_into, multiply_within};
use crate::recip::RECIP_ALPHA;
use pixel_lists::bad_lists;
use refusal::Refusal;

// Each pixel of src, its colours multiplied by its alpha, into dst.
pub fn multiply_alpha(src: &[u8], dst: &mut [u8]) -> Result<(), Refusal>
    ensures answer { result ≡ applied_to src.now dst.old }
    ensures written { dst.new ≡ multiplied_list src.now dst.old }
{
    if bad_lists(src.len(), dst.len()) {
        return Err(Refusal::DoesNotFit);
    }
    multiply_into(src, dst);
    Ok(())
}

// Each pixel's colours multiplied by its alpha, in place.
pub fn multiply_alpha_inplace(pixels: &mut [u8]) -> Result<(), Refusal>
    ensures answer { result ≡ applied_to pixels.old pixels.old }
    ensures written { pixels.new ≡ multiplied_list pixels.old pixels.old }
{
    if bad_lists(pixels.len(), pixels.len()) {
        return Err(Refusal::DoesNotFit);
    }
    multiply_within(pixels);
    Ok(())
}

// Each pixel of src, its colours divided by its alpha, into dst.
pub fn divide_alpha(src: &[u8], dst: &mut [u8]) -> Result<(), Refusal>
    ensures answer { result ≡ applied_to src.now dst.old }
    ensures written { dst.new ≡ divided_list src.now dst.old }
{
    if bad_lists(src.len(), dst.len()) {
        return Err(Refusal::DoesNotFit);
    }
    divide_into(src, dst, &RECIP_ALPHA);
    Ok(())
}

// Each pixel's colours divided by its alpha, in place.
pub fn divide_alpha_inplace(pixels: &mut [u8]) -> Result<(), Refusal>
    ensures answer { result ≡ applied_to pixels.old pixels.old }
    ensures written { pixels.new ≡ divided_list pixels.old pixels.old }
{
    if bad_lists(pixels.len(), pixels.len()) {
        return Err(Refusal::DoesNotFit);
    }
    divide_within(pixels, &RECIP_ALPHA);
    Ok(())
}
