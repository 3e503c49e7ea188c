// The camera lines of a window, a line of text each.
ghost use Rattle.std.specs.Prelude.{◌≡◌, length};
ghost use Rattle.text.specs.Text.{laid, reached};
ghost use Rattle.excesses.specs.Slots.{slot_from};
ghost use Rattle.story_text.specs.Text.{part_text, camera_text, lines_text};
ghost use Rattle.story_text.specs.There.{sample_from, There};

use crate::keys;
use crate::sums::{product, sample_at};
use sheet::keys::{COMMA, NEWLINE};
use text::{put, put_byte, put_field, put_signed};
use windows::CameraLine;

// A number behind a comma.
fn put_part(v: i64, at: usize, out: &mut [u8]) -> usize
    ensures answer { result ≡ reached at (length (part_text v)) }
    ensures written { out.new ≡ laid out.old at (part_text v) }
{
    let a = put(&COMMA, at, out);
    put_signed(v, a, out)
}

// The line of one camera line: its number, weight, sample and product.
fn put_camera(line: CameraLine, weight: i32, sample: u16, at: usize, out: &mut [u8]) -> usize
    ensures answer { result ≡ reached at (length (camera_text line.0 weight sample)) }
    ensures written { out.new ≡ laid out.old at (camera_text line.0 weight sample) }
{
    let a = put_field(&keys::LINE, line.0 as u64, at, out);
    let b = put_part(weight as i64, a, out);
    let c = put_field(&COMMA, sample as u64, b, out);
    let d = put_part(product(weight, sample), c, out);
    put_byte(NEWLINE, d, out)
}

// The lines of the window's camera lines.
pub fn put_lines(
    src: &[u16],
    row: u32,
    column: u32,
    weights: &[i32],
    from: usize,
    start: CameraLine,
    size: u32,
    at: usize,
    out: &mut [u8],
) -> usize
    requires { There (length weights.now) (length src.now) row column from start.0 size }
    ensures answer { result ≡ reached at (length (lines_text start.0 (slot_from weights.now from) (sample_from src.now row column start.0) size)) }
    ensures written { out.new ≡ laid out.old at (lines_text start.0 (slot_from weights.now from) (sample_from src.now row column start.0) size) }
{
    let mut p = at;
    for k in 0..size {
        let line = CameraLine(start.0 + k);
        let sample = sample_at(src, row, column, line);
        p = put_camera(line, weights[from + k as usize], sample, p, out);
    }
    p
}
