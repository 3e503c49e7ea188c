// The judges: lists and shares, whether a client may enter, and what is lent with a set that is put in.
ghost use Rattle.std.specs.Prelude.{◌≡◌, ◌||◌, ◌+◌, ◌*◌, ltb, get_or};
ghost use Rattle.shares.specs.Store.{bad_lengths, closed_by};
ghost use Rattle.shares.specs.Scratch.{bad_scratch};

// Whether the lists have other lengths than those of a store.
pub fn lists_misfit(numbers: usize, starts: usize, sizes: usize, excesses: usize) -> bool
    ensures answer { result ≡ bad_lengths numbers starts sizes excesses }
{
    (((numbers != 10) | (starts != 16384)) | (sizes != 16384)) | (excesses != 16384)
}

// Whether two shares are together more than the slots. The sum is taken in 64 bits, where it cannot wrap.
pub fn too_few(slots: usize, first: u32, second: u32) -> bool
    ensures answer { result ≡ ltb slots (first + second) }
{
    let sum = first as u64 + second as u64;
    (slots as u64) < sum
}

// Whether the store is closed to a client: its lists, its shares, or no such client.
pub(crate) fn closed(
    numbers: &[u32],
    slots: usize,
    starts: usize,
    sizes: usize,
    excesses: usize,
    client: u32,
) -> bool
    ensures answer { result ≡ closed_by numbers.now slots starts sizes excesses client }
{
    if lists_misfit(numbers.len(), starts, sizes, excesses) {
        return true;
    }
    too_few(slots, numbers[0], numbers[5]) | (1 < client)
}

// Whether fewer places are lent than the share has slots, or than 8,192.
fn scratch_misfits(share: usize, doubles: usize, firsts: usize, counts: usize) -> bool
    ensures answer { result ≡ bad_scratch share doubles firsts counts }
{
    ((doubles < share) | (firsts < 8192)) | (counts < 8192)
}

// Whether a set is barred before it is built: the store closed, or too little lent.
pub fn barred(
    numbers: &[u32],
    slots: usize,
    starts: usize,
    sizes: usize,
    excesses: usize,
    client: u32,
    doubles: usize,
    firsts: usize,
    counts: usize,
) -> bool
    ensures answer { result ≡ closed_by numbers.now slots starts sizes excesses client || bad_scratch (get_or numbers.now (client * 5 + 0) 0) doubles firsts counts }
{
    if closed(numbers, slots, starts, sizes, excesses, client) {
        return true;
    }
    scratch_misfits(
        crate::places::share(numbers, client),
        doubles,
        firsts,
        counts,
    )
}
