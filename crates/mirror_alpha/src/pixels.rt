// u8x4 alpha, in two lists or in place: 0 or No. 10.
ghost use Rattle.std.specs.Prelude.{◌≡◌};
ghost use Rattle.pixel_lists.specs.Lists.{applied_to, number_of};
ghost use Rattle.alpha.specs.Lists.{multiplied_list, divided_list};

use refusal::Numbered;

// Every pixel of src, its colours multiplied by its alpha, in dst.
#[unsafe(no_mangle)]
pub extern "C" fn mirror_multiply_u8x4(src: &[u8], dst: &mut [u8]) -> u32
    ensures answer { result ≡ number_of (applied_to src.now dst.old) }
    ensures written { dst.new ≡ multiplied_list src.now dst.old }
{
    alpha::multiply_alpha(src, dst).number()
}

// The same, of the list itself.
#[unsafe(no_mangle)]
pub extern "C" fn mirror_multiply_u8x4_inplace(pixels: &mut [u8]) -> u32
    ensures answer { result ≡ number_of (applied_to pixels.old pixels.old) }
    ensures written { pixels.new ≡ multiplied_list pixels.old pixels.old }
{
    alpha::multiply_alpha_inplace(pixels).number()
}

// Every pixel of src, its colours divided by its alpha, in dst.
#[unsafe(no_mangle)]
pub extern "C" fn mirror_divide_u8x4(src: &[u8], dst: &mut [u8]) -> u32
    ensures answer { result ≡ number_of (applied_to src.now dst.old) }
    ensures written { dst.new ≡ divided_list src.now dst.old }
{
    alpha::divide_alpha(src, dst).number()
}

// The same, of the list itself.
#[unsafe(no_mangle)]
pub extern "C" fn mirror_divide_u8x4_inplace(pixels: &mut [u8]) -> u32
    ensures answer { result ≡ number_of (applied_to pixels.old pixels.old) }
    ensures written { pixels.new ≡ divided_list pixels.old pixels.old }
{
    alpha::divide_alpha_inplace(pixels).number()
}
