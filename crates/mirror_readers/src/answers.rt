// What the sheet's head says, as numbers.
ghost use Rattle.std.specs.Prelude.{◌≡◌};
ghost use Rattle.mirror_readers.specs.Told.{no_head, said_by, head_of};

use crate::Head;
use codes::filter_code;
use reader::Unread;
use sheet_scan::{Sizes, StoreLines};

// Of a sheet that is loaded.
fn said(sizes: Sizes, store: StoreLines) -> Head
    ensures answer { result ≡ said_by sizes store }
{
    let kind = sizes.kind;
    Head {
        filter: filter_code(kind),
        lines: sizes.lines,
        windows: sizes.windows,
        window_size: sizes.window_size,
        store: store.bits,
        precision: store.precision,
    }
}

// Beside a refusal.
fn nothing() -> Head
    ensures answer { result ≡ no_head }
{
    Head {
        filter: 0,
        lines: 0,
        windows: 0,
        window_size: 0,
        store: 0,
        precision: 0,
    }
}

// Beside an answer.
pub(crate) fn head_of(answer: Result<(Sizes, StoreLines), Unread>) -> Head
    ensures answer { result ≡ head_of answer }
{
    match answer {
        Ok((sizes, store)) => said(sizes, store),
        Err(_) => nothing(),
    }
}
