// The u16 pass with the set that a client holds.
ghost use Rattle.std.specs.Prelude.{◌≡◌, length};
ghost use Rattle.vertical.specs.Passed.{number_of};
ghost use Rattle.shares.specs.Store.{store_of, view_of};
ghost use Rattle.shares.specs.Machine.{pass_answer, pass_output};

use refusal::Numbered;

// The value of every window of the client's set at every column of the range: 0, No. 1 or No. 10.
#[unsafe(no_mangle)]
pub extern "C" fn mirror_store_u16(
    numbers: &[u32],
    slots: &[i32],
    starts: &[u32],
    sizes: &[u32],
    excesses: &[i64],
    client: u32,
    src: &[u16],
    row: u32,
    first: u32,
    count: u32,
    out: &mut [u16],
) -> u32
    ensures answer { result ≡ number_of (pass_answer (view_of (store_of numbers.now slots.now starts.now sizes.now excesses.now) client) src.now row first count (length out.old)) }
    ensures written { out.new ≡ pass_output (view_of (store_of numbers.now slots.now starts.now sizes.now excesses.now) client) src.now row first count out.old }
{
    shared_store::pass(
        numbers, slots, starts, sizes, excesses, client, src, row, first, count, out,
    )
    .number()
}
