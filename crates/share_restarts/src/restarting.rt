// A restart: the shares set anew, and no set.
ghost use Rattle.std.specs.Prelude.{◌≡◌, length, replicate};
ghost use Rattle.shares.specs.Store.{store_of};
ghost use Rattle.shares.specs.Machine.{next, restarts, restarted_of};

use refusal::Refusal;
use share_lists::{lists_misfit, too_few};

// Both clients emptied and the shares set anew, for any lists and shares; refused (No. 10, then No. 15), nothing is changed.
pub fn restart(
    numbers: &mut [u32],
    slots: &[i32],
    starts: &[u32],
    sizes: &[u32],
    excesses: &[i64],
    first: u32,
    second: u32,
) -> Result<(), Refusal>
    ensures answer { result ≡ restarted_of (store_of numbers.old slots.now starts.now sizes.now excesses.now) first second }
    ensures written { numbers.new ≡ (next (store_of numbers.old slots.now starts.now sizes.now excesses.now) (restarts first second)).numbers }
{
    if lists_misfit(numbers.len(), starts.len(), sizes.len(), excesses.len()) {
        return Err(Refusal::DoesNotFit);
    }
    if too_few(slots.len(), first, second) {
        return Err(Refusal::SharesDoNotFit);
    }
    clear(numbers);
    numbers[0] = first;
    numbers[5] = second;
    Ok(())
}

// Every number 0.
fn clear(numbers: &mut [u32])
    ensures written { numbers.new ≡ replicate (length numbers.old) 0 }
{
    numbers.fill(0);
}
