// A pixel of four components, alpha last: read and written whole, its colours changed. The reciprocal is worked out once for its three colours.
ghost use Rattle.std.specs.Prelude.{◌≡◌, ◌+◌, ◌≤◌, length};
ghost use Rattle.pixel_lists.specs.Lists.{stored};
ghost use Rattle.colours_u16.specs.Alpha.{multiplied, divided};
ghost use Rattle.alpha_u16.specs.Pixels.{pixel_at, on_colours};

use colours_u16::{div_and_clip16, mul_div_65535, reciprocal};

#[derive(Clone, Copy)]
pub(crate) struct Pixel {
    pub(crate) c0: u16,
    pub(crate) c1: u16,
    pub(crate) c2: u16,
    pub(crate) alpha: u16,
}

// The pixel whose first component is at i.
pub(crate) fn load4(s: &[u16], i: usize) -> Pixel
    requires { i + 4 ≤ length s.now }
    ensures answer { result ≡ pixel_at s.now i }
{
    Pixel {
        c0: s[i],
        c1: s[i + 1],
        c2: s[i + 2],
        alpha: s[i + 3],
    }
}

// The pixel x written with its first component at i.
pub(crate) fn store4(s: &mut [u16], i: usize, x: Pixel)
    requires { i + 4 ≤ length s.old }
    ensures written { s.new ≡ stored s.old i x.c0 x.c1 x.c2 x.alpha }
{
    s[i] = x.c0;
    s[i + 1] = x.c1;
    s[i + 2] = x.c2;
    s[i + 3] = x.alpha;
}

// The pixel x with its colours multiplied by its alpha.
pub(crate) fn multiplied_pixel(x: Pixel) -> Pixel
    ensures answer { result ≡ on_colours multiplied x }
{
    Pixel {
        c0: mul_div_65535(x.c0, x.alpha),
        c1: mul_div_65535(x.c1, x.alpha),
        c2: mul_div_65535(x.c2, x.alpha),
        alpha: x.alpha,
    }
}

// The pixel x with its colours divided by its alpha.
pub(crate) fn divided_pixel(x: Pixel) -> Pixel
    ensures answer { result ≡ on_colours divided x }
{
    let alpha = x.alpha;
    let recip = reciprocal(alpha);
    Pixel {
        c0: div_and_clip16(x.c0, alpha, recip),
        c1: div_and_clip16(x.c1, alpha, recip),
        c2: div_and_clip16(x.c2, alpha, recip),
        alpha,
    }
}
