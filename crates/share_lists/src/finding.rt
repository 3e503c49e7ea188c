// Where the set of a client stands.
ghost use Rattle.std.specs.Prelude.{◌≡◌, ◌+◌, ◌*◌, ◌^◌, ◌≤◌, ◌<◌, length, get_or};
ghost use Rattle.shares.specs.Store.{unset_by};
ghost use Rattle.share_lists.specs.Inner.{place_of, found_in};

use crate::Place;
use crate::judging::closed;
use crate::places::{line_base, many, number, slot_base, wide};

// Where a client's set stands, or nothing, for any numbers and counts of the lists.
pub fn find(
    numbers: &[u32],
    slots: usize,
    starts: usize,
    sizes: usize,
    excesses: usize,
    client: u32,
) -> Option<Place>
    ensures answer { result ≡ found_in numbers.now slots starts sizes excesses client }
{
    if closed(numbers, slots, starts, sizes, excesses, client) {
        return None;
    }
    if has_none(numbers, client) {
        return None;
    }
    Some(locate(numbers, client))
}

// Whether a client has no set in its share.
fn has_none(numbers: &[u32], client: u32) -> bool
    requires fact_1 { length numbers.now ≡ 10 }
    requires fact_2 { client ≤ 1 }
    ensures answer { result ≡ unset_by (get_or numbers.now (client * 5 + 0) 0) (get_or numbers.now (client * 5 + 2) 0) (get_or numbers.now (client * 5 + 3) 0) }
{
    unset(
        number(numbers, client, 0),
        number(numbers, client, 2),
        number(numbers, client, 3),
    )
}

fn unset(share: u32, held: u32, window: u32) -> bool
    ensures answer { result ≡ unset_by share held window }
{
    let some = many(held, window);
    ((held == 0) | (8192 < held)) | ((share as usize) < some)
}

// The place of a set by a client's numbers.
fn locate(numbers: &[u32], client: u32) -> Place
    requires fact_1 { length numbers.now ≡ 10 }
    requires fact_2 { client ≤ 1 }
    ensures answer { result ≡ place_of numbers.now client }
{
    let held = number(numbers, client, 2);
    let window = number(numbers, client, 3);
    let a = slot_base(numbers, client);
    let b = line_base(client);
    Place {
        lines: number(numbers, client, 1),
        window: window,
        precision: number(numbers, client, 4),
        from: a,
        to: behind(a, held, window),
        head: b,
        tail: b + wide(held),
    }
}

// The end of so many windows, from a on.
fn behind(a: usize, held: u32, window: u32) -> usize
    requires { a < 2 ^ 32 }
    ensures answer { result ≡ a + held * window }
{
    a + many(held, window)
}
