// `clips`: a sum that is already shifted, clipped to a sample. `clip8` reads CLIP8_LOOKUPS as the Rust does, after a test of the range; `clamp8` gives the same
// without the table, for the u8 pass; `clip16` is the clip of the u16 pass. All are `clipped M` of `integers`, M being the largest sample.
#![tactic(auto)]

mod table;

ghost use Rattle.std.specs.Prelude.{◌≡◌, ◌<◌, pos};
ghost use Rattle.lists.specs.Tab.{tab};
ghost use Rattle.integers.specs.Sums.{clipped};
ghost use Rattle.clips.specs.Table.{entry_of, natural};

use table::CLIP8_LOOKUPS;

// v clipped to 0 .. 255, for any i32: the table's entry where the table reaches, from -640 to 639.
pub fn clip8(v: i32) -> u8
    ensures answer { result ≡ clipped 255 v }
{
    if v < -640 {
        return 0;
    }
    if 639 < v {
        return 255;
    }
    lookup((v + 640) as usize)
}

// v clipped to 0 .. 255, for any i32: what `clip8` gives, by a maximum and a minimum, which take sixteen columns at once where the table takes one.
pub fn clamp8(v: i32) -> u8
    ensures answer { result ≡ clipped 255 v }
{
    at_most8(at_least8(v))
}

// v clipped to 0 .. 65535, for any i64. A maximum and a minimum, which compile to no branch.
pub fn clip16(v: i64) -> u16
    ensures answer { result ≡ clipped 65535 v }
{
    at_most(at_least(v))
}

// The entry of CLIP8_LOOKUPS at k, which stands for k - 640. The table is lent on, since a constant indexed by name is copied at each use.
fn lookup(k: usize) -> u8
    requires { k < 1280 }
    ensures answer { result ≡ entry_of k }
{
    entry(&CLIP8_LOOKUPS, k)
}

// The entry at k of a table that follows the rule.
fn entry(table: &[u8], k: usize) -> u8
    requires fact_1 { table.now ≡ tab 0 1280 entry_of }
    requires fact_2 { k < 1280 }
    ensures { result ≡ entry_of k }
{
    table[k]
}

// v, or 0 where v is below it.
fn at_least(v: i64) -> i64
    ensures { result ≡ pos (natural v) }
{
    if v < 0 { 0 } else { v }
}

// v, or 65535 where v is above it, for v from 0 on.
fn at_most(v: i64) -> u16
    requires { v ≡ pos (natural v) }
    ensures { result ≡ clipped 65535 v }
{
    if v > 65535 { 65535 } else { v as u16 }
}

// The same two for the clip to 0 .. 255.
fn at_least8(v: i32) -> i32
    ensures { result ≡ pos (natural v) }
{
    if v < 0i32 { 0 } else { v }
}

fn at_most8(v: i32) -> u8
    requires { v ≡ pos (natural v) }
    ensures { result ≡ clipped 255 v }
{
    if v > 255 { 255 } else { v as u8 }
}
