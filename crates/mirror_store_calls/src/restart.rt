// Both clients emptied, and the shares set anew.
ghost use Rattle.std.specs.Prelude.{◌≡◌};
ghost use Rattle.shares.specs.Store.{store_of};
ghost use Rattle.shares.specs.Restarted.{number_of};
ghost use Rattle.shares.specs.Machine.{next, restarts, restarted_of};

use refusal::Numbered;

// The shares of client 0 and client 1, and no set: 0, No. 10 or No. 15.
#[unsafe(no_mangle)]
pub extern "C" fn mirror_store_restart(
    numbers: &mut [u32],
    slots: &[i32],
    starts: &[u32],
    sizes: &[u32],
    excesses: &[i64],
    first: u32,
    second: u32,
) -> u32
    ensures answer { result ≡ number_of (restarted_of (store_of numbers.old slots.now starts.now sizes.now excesses.now) first second) }
    ensures written { numbers.new ≡ (next (store_of numbers.old slots.now starts.now sizes.now excesses.now) (restarts first second)).numbers }
{
    share_restarts::restart(numbers, slots, starts, sizes, excesses, first, second).number()
}
