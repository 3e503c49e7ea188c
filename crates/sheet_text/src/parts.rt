// The parts of a sheet that do not depend on the store's width.
ghost use Rattle.std.specs.Prelude.{◌≡◌, ◌+◌, ◌^◌, ◌<◌, length};
ghost use Rattle.text.specs.Text.{laid, reached};
ghost use Rattle.sheet.specs.Keys.{kind_name};
ghost use Rattle.sheet.specs.Text.{kind_text, sides_text, store_text, head_text, item_text, open_text};

use filters::FilterType;
use sheet::keys;
use text::{put, put_byte, put_field, put_line, put_signed};

// The filter's name.
fn put_kind(kind: FilterType, at: usize, out: &mut [u8]) -> usize
    ensures answer { result ≡ reached at (length (kind_name kind)) }
    ensures written { out.new ≡ laid out.old at (kind_name kind) }
{
    match kind {
        FilterType::Box => put(&keys::BOX, at, out),
        FilterType::Bilinear => put(&keys::BILINEAR, at, out),
        FilterType::CatmullRom => put(&keys::CATMULL_ROM, at, out),
        FilterType::Mitchell => put(&keys::MITCHELL, at, out),
    }
}

// The filter's line.
fn put_kind_line(kind: FilterType, at: usize, out: &mut [u8]) -> usize
    ensures answer { result ≡ reached at (length (kind_text kind)) }
    ensures written { out.new ≡ laid out.old at (kind_text kind) }
{
    let a = put(&keys::KIND, at, out);
    let b = put_kind(kind, a, out);
    put_byte(keys::NEWLINE, b, out)
}

// The lines of the two sides and of the window size.
fn put_sides(lines: u64, outs: u64, window: u64, at: usize, out: &mut [u8]) -> usize
    ensures answer { result ≡ reached at (length (sides_text lines outs window)) }
    ensures written { out.new ≡ laid out.old at (sides_text lines outs window) }
{
    let a = put_line(&keys::IN, lines, at, out);
    let b = put_line(&keys::OUT, outs, a, out);
    put_line(&keys::WINDOW, window, b, out)
}

// The lines of the store and the precision.
fn put_store(store: u64, precision: u64, at: usize, out: &mut [u8]) -> usize
    ensures answer { result ≡ reached at (length (store_text store precision)) }
    ensures written { out.new ≡ laid out.old at (store_text store precision) }
{
    let a = put_line(&keys::STORE, store, at, out);
    put_line(&keys::PRECISION, precision, a, out)
}

// The six head lines.
pub fn put_head(
    kind: FilterType,
    lines: u64,
    outs: u64,
    window: u64,
    store: u64,
    precision: u64,
    at: usize,
    out: &mut [u8],
) -> usize
    ensures answer { result ≡ reached at (length (head_text kind lines outs window store precision)) }
    ensures written { out.new ≡ laid out.old at (head_text kind lines outs window store precision) }
{
    let a = put_kind_line(kind, at, out);
    let b = put_sides(lines, outs, window, a, out);
    put_store(store, precision, b, out)
}

// The element j of a list.
pub(crate) fn put_item(j: usize, v: i64, at: usize, out: &mut [u8]) -> usize
    ensures answer { result ≡ reached at (length (item_text j v)) }
    ensures written { out.new ≡ laid out.old at (item_text j v) }
{
    if j == 0 {
        return put_signed(v, at, out);
    }
    let p = put_byte(keys::SEPARATOR, at, out);
    put_signed(v, p, out)
}

// The beginning of a window's line.
pub(crate) fn put_open(i: u64, start: u32, size: u32, at: usize, out: &mut [u8]) -> usize
    ensures answer { result ≡ reached at (length (open_text i start size)) }
    ensures written { out.new ≡ laid out.old at (open_text i start size) }
{
    let a = put_field(&keys::LINE, i, at, out);
    let b = put_field(&keys::EQUALS, start as u64, a, out);
    let c = put_field(&keys::COMMA, size as u64, b, out);
    put_byte(keys::COLON, c, out)
}
