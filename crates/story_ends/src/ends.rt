// The five lines after the camera lines: total, half, shifted value, clip, final number.
ghost use Rattle.std.specs.Prelude.{◌≡◌, ◌-◌, ◌^◌, ◌≤◌, ◌<◌, nat_abs, ◌+ℤ◌, length};
ghost use Rattle.std.specs.Int.Signed.{shr_z};
ghost use Rattle.integers.specs.Sums.{shifted as shifted_of, clipped};
ghost use Rattle.text.specs.Text.{laid, reached};
ghost use Rattle.story_text.specs.Text.{clip_word, clip_text, end_text};

use clips::clip16;
use row_u16::{half, shift};
use sheet::keys::NEWLINE;
use signed_lines::put_signed_line;
use story_text::keys;
use text::{put, put_byte, put_line};

// The word of the clip to 0 .. 65535. A value of exactly 65535 is not cut.
fn put_word(v: i64, at: usize, out: &mut [u8]) -> usize
    ensures answer { result ≡ reached at (length (clip_word 65535 v)) }
    ensures written { out.new ≡ laid out.old at (clip_word 65535 v) }
{
    if v < 0 {
        return put(&keys::LOW, at, out);
    }
    if 65535 < v {
        return put(&keys::HIGH, at, out);
    }
    put(&keys::NONE, at, out)
}

// The line of the clip.
fn put_clip(v: i64, at: usize, out: &mut [u8]) -> usize
    ensures answer { result ≡ reached at (length (clip_text v)) }
    ensures written { out.new ≡ laid out.old at (clip_text v) }
{
    let a = put(&keys::CLIP, at, out);
    let b = put_word(v, a, out);
    put_byte(NEWLINE, b, out)
}

// A total with a half added, divided by 2^p rounding down.
fn shifted(t: i64, h: i64, p: u32) -> i64
    requires { (p < 64) × (nat_abs t ≤ 2 ^ 60) × (nat_abs h ≤ 2 ^ 44) }
    ensures answer { result ≡ shr_z (t +ℤ h) (2 ^ p) }
{
    shift(t + h, p)
}

// The five lines of a total at a precision.
pub(crate) fn put_end(t: i64, p: u32, at: usize, out: &mut [u8]) -> usize
    requires { (1 ≤ p) × (p ≤ 45) × (nat_abs t ≤ 2 ^ 60) }
    ensures answer { result ≡ reached at (length (end_text t (2 ^ (p - 1)) (shifted_of p t) (clipped 65535 (shifted_of p t)))) }
    ensures written { out.new ≡ laid out.old at (end_text t (2 ^ (p - 1)) (shifted_of p t) (clipped 65535 (shifted_of p t))) }
{
    let h = half(p);
    let v = shifted(t, h, p);
    let a = put_signed_line(&keys::TOTAL, t, at, out);
    let b = put_signed_line(&keys::HALF, h, a, out);
    let c = put_signed_line(&keys::SHIFTED, v, b, out);
    let d = put_clip(v, c, out);
    put_line(&keys::FINAL, clip16(v) as u64, d, out)
}
