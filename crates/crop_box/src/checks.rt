// The checks of `crop`: a function for each row of document 01's table, in its order.
ghost use Rattle.std.specs.Prelude.{◌≡◌};
ghost use Rattle.lists.specs.Ranges.{bad_sides_value};
ghost use Rattle.crop_box.specs.End.{FromZero, ends_past_value};
ghost use Rattle.crop_box.specs.Crop.{crop_of, not_finite_value, negative_extent_value, start_outside_value, end_outside_value};

use crate::CropBox;
use numbers::finite;
use refusal::Refusal;

// No. 1: a side outside 1 to 8,192.
fn bad_sides(w: u32, h: u32) -> bool
    ensures answer { result ≡ bad_sides_value w h }
{
    ((w < 1) | (8192 < w)) | ((h < 1) | (8192 < h))
}

// No. 2: a number that is NaN or infinite.
fn not_finite(b: CropBox) -> bool
    ensures answer { result ≡ not_finite_value b }
{
    !(finite(b.left) & finite(b.top) & finite(b.width) & finite(b.height))
}

// No. 3: width or height below 0; minus zero is not.
fn negative_extent(b: CropBox) -> bool
    ensures answer { result ≡ negative_extent_value b }
{
    (b.width < 0.0) | (b.height < 0.0)
}

// No. 4: left or top below 0, or at or past the side.
fn start_outside(w: u32, h: u32, b: CropBox) -> bool
    ensures answer { result ≡ start_outside_value w h b }
{
    (b.left < 0.0) | (w as f64 <= b.left) | (b.top < 0.0) | (h as f64 <= b.top)
}

// Whether start + extent is past the side, as real numbers: what the larger of the two leaves of the side is less than the smaller. Where the two reach past the
// side, the larger is at least half of it, and the difference is exact; where they do not, rounding the difference takes it past no double, the smaller among them.
fn ends_past(start: f64, extent: f64, side: u32) -> bool
    requires fact_1 { FromZero start }
    requires fact_2 { FromZero extent }
    ensures answer { result ≡ ends_past_value start extent side }
{
    let s = side as f64;
    if start < extent {
        return s - extent < start;
    }
    s - start < extent
}

// No. 5: left + width or top + height past the side, for numbers that were judged before.
fn end_outside(w: u32, h: u32, b: CropBox) -> bool
    requires fact_1 { FromZero b.left }
    requires fact_2 { FromZero b.width }
    requires fact_3 { FromZero b.top }
    requires fact_4 { FromZero b.height }
    ensures answer { result ≡ end_outside_value w h b }
{
    ends_past(b.left, b.width, w) | ends_past(b.top, b.height, h)
}

// The box as it is, or the first refusal that applies, for any sides and any four numbers.
pub fn crop(w: u32, h: u32, b: CropBox) -> Result<CropBox, Refusal>
    ensures answer { result ≡ crop_of w h b }
{
    if bad_sides(w, h) {
        return Err(Refusal::BadSide);
    }
    if not_finite(b) {
        return Err(Refusal::NotFinite);
    }
    if negative_extent(b) {
        return Err(Refusal::NegativeExtent);
    }
    if start_outside(w, h, b) {
        return Err(Refusal::StartOutside);
    }
    if end_outside(w, h, b) {
        return Err(Refusal::EndOutside);
    }
    Ok(b)
}
