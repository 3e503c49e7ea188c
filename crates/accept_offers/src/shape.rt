// What an offer must have as it is stored.
ghost use Rattle.std.specs.Prelude.{◌≡◌};
ghost use Rattle.repairs.specs.Offer.{unlike as unlikeOf, other_shape};

// Whether the offer's window size, precision, starts, sizes or count of slots is not the stored one.
pub(crate) fn shape_differs(
    window_size: u32,
    precision: u32,
    starts: &[u32],
    sizes: &[u32],
    slots: usize,
    offered_window_size: u32,
    offered_precision: u32,
    offered_starts: &[u32],
    offered_sizes: &[u32],
    offered_slots: usize,
) -> bool
    ensures answer { result ≡ other_shape window_size precision starts.now sizes.now slots offered_window_size offered_precision offered_starts.now offered_sizes.now offered_slots }
{
    let other_starts = unlike(offered_starts, starts);
    let other_sizes = unlike(offered_sizes, sizes);
    ((((offered_window_size != window_size) | (offered_precision != precision)) | other_starts)
        | other_sizes)
        | (offered_slots != slots)
}

// Whether two lists differ.
fn unlike(a: &[u32], b: &[u32]) -> bool
    ensures answer { result ≡ unlikeOf a.now b.now }
{
    if a.len() != b.len() {
        return true;
    }
    let mut bad = false;
    for k in 0..a.len() {
        bad = bad | (a[k] != b[k]);
    }
    bad
}
