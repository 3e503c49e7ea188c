// The windows' lines, of the weights of either store, and the line of the excesses.
ghost use Rattle.std.specs.Prelude.{◌≡◌, ◌+◌, ◌^◌, ◌<◌, ◌≤◌, length};
ghost use Rattle.text.specs.Text.{laid, reached};
ghost use Rattle.windows.specs.Set.{layout_of};
ghost use Rattle.windows.specs.Fit.{Fits};
ghost use Rattle.sheet.specs.Text.{list_text, windows_text, excess_text};

use crate::parts::{put_item, put_open};
use sheet::keys;
use text::{put, put_byte};
use windows::Weight;

// `size` weights from the slot `from` on.
fn put_weights<W: Weight>(weights: &[W], from: usize, size: u32, at: usize, out: &mut [u8]) -> usize
    requires { from + size ≤ length weights.now }
    ensures answer { result ≡ reached at (length (list_text (W.values weights.now) from size)) }
    ensures written { out.new ≡ laid out.old at (list_text (W.values weights.now) from size) }
{
    let mut p = at;
    for j in 0..size as usize {
        p = put_item(j, weights[from + j].number(), p, out);
    }
    p
}

// The windows' lines.
pub fn put_windows<W: Weight>(
    starts: &[u32],
    sizes: &[u32],
    window: usize,
    weights: &[W],
    at: usize,
    out: &mut [u8],
) -> usize
    requires { Fits (layout_of 8192 window starts.now sizes.now) (length weights.now) }
    ensures answer { result ≡ reached at (length (windows_text starts.now sizes.now window (W.values weights.now))) }
    ensures written { out.new ≡ laid out.old at (windows_text starts.now sizes.now window (W.values weights.now)) }
{
    let mut p = at;
    for i in 0..starts.len() {
        let size = sizes[i];
        let a = put_open(i as u64, starts[i], size, p, out);
        let b = put_weights(weights, i * window, size, a, out);
        p = put_byte(keys::NEWLINE, b, out);
    }
    p
}

// The numbers of a list.
fn put_list(list: &[i64], at: usize, out: &mut [u8]) -> usize
    ensures answer { result ≡ reached at (length (list_text list.now 0 (length list.now))) }
    ensures written { out.new ≡ laid out.old at (list_text list.now 0 (length list.now)) }
{
    let mut p = at;
    for (j, v) in list.iter().enumerate() {
        p = put_item(j, *v, p, out);
    }
    p
}

// The line of the excesses.
pub fn put_excesses(excesses: &[i64], at: usize, out: &mut [u8]) -> usize
    ensures answer { result ≡ reached at (length (excess_text excesses.now)) }
    ensures written { out.new ≡ laid out.old at (excess_text excesses.now) }
{
    let a = put(&keys::EXCESS, at, out);
    let b = put_list(excesses, a, out);
    put_byte(keys::NEWLINE, b, out)
}
