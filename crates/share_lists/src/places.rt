// The ten numbers of a store, and where the parts of a client begin.
ghost use Rattle.std.specs.Prelude.{◌≡◌, ◌+◌, ◌*◌, ◌^◌, ◌≤◌, ◌<◌, length, get_or};

// The number k of a client.
pub(crate) fn number(numbers: &[u32], client: u32, k: usize) -> u32
    requires { (length numbers.now ≡ 10) × ((client ≤ 1) × (k ≤ 4)) }
    ensures answer { result ≡ get_or numbers.now (client * 5 + k) 0 }
{
    numbers[client as usize * 5 + k]
}

// The share of a client.
pub fn share(numbers: &[u32], client: u32) -> usize
    requires { (length numbers.now ≡ 10) × (client ≤ 1) }
    ensures answer { (result ≡ get_or numbers.now (client * 5 + 0) 0) × (result < 2 ^ 32) }
{
    wide(number(numbers, client, 0))
}

// Where a client's slots begin.
pub fn slot_base(numbers: &[u32], client: u32) -> usize
    requires fact_1 { length numbers.now ≡ 10 }
    requires fact_2 { client ≤ 1 }
    ensures answer { (result ≡ client * get_or numbers.now 0 0) × (result < 2 ^ 32) }
{
    if client == 0 {
        return 0;
    }
    wide(numbers[0])
}

// Where a client's starts, sizes and excesses begin.
pub fn line_base(client: u32) -> usize
    requires { client ≤ 1 }
    ensures answer { result ≡ client * 8192 }
{
    client as usize * 8192
}

pub(crate) fn wide(x: u32) -> usize
    ensures answer { (result ≡ x) × (result < 2 ^ 32) }
{
    x as usize
}

// The slots of so many windows.
pub(crate) fn many(held: u32, window: u32) -> usize
    ensures answer { (result ≡ held * window) × (result ≤ 18446744065119617025) }
{
    held as usize * window as usize
}
