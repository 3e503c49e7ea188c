// All of a sheet after its size lines.
ghost use Rattle.std.specs.Prelude.{◌≡◌, ◌≤◌, length};
ghost use Rattle.sheet_scan.specs.Language.{limit_of_value};
ghost use Rattle.sheet_scan.specs.Lines.{size_lines};
ghost use Rattle.sheet_scan.specs.Whole.{ScansRest};

use crate::heads::scan_store;
use crate::rows::scan_windows;
use crate::{Sizes, StoreLines};

// A store's weights are below this, and at least minus this.
pub fn limit_of(bits: u32) -> u64
    ensures answer { result ≡ limit_of_value bits }
{
    if bits == 16 {
        return 32768;
    }
    2147483648
}

// The store's lines and the windows' lines: what the former say, the place of the latter and the place after them.
pub fn scan_rest(
    wide: bool,
    v: Sizes,
    text: &[u8],
    at: usize,
) -> Result<(StoreLines, usize, usize), usize>
    requires { size_lines.Good v × (at ≤ length text.now) }
    ensures answer { ScansRest wide v text.now at result }
{
    let (store, mid) = scan_store(wide, text, at)?;
    let limit = limit_of(store.bits);
    let next = scan_windows(v.lines, v.windows, v.window_size, limit, text, mid)?;
    Ok((store, mid, next))
}
