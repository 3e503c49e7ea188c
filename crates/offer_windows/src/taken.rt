// The excesses after an offer was taken over.
ghost use Rattle.std.specs.Prelude.{◌≡◌, length};
ghost use Rattle.lists.specs.Tab.{tab};
ghost use Rattle.offer_windows.specs.Walks.{no_excess};

// Every excess 0.
pub fn clear(excesses: &mut [i64])
    ensures written { excesses.new ≡ tab 0 (length excesses.old) no_excess }
{
    excesses.fill(0);
}
