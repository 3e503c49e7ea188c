// `store_sets`: a request made a set of the 32-bit store. `make` builds it in lists that are lent for that alone, and leaves weights and excesses at the beginning of the
// two lists that the set is to stand in; refused, those two are as they were. A worker of `shared_store`.
#![tactic(auto)]

mod steps;

ghost use Rattle.std.specs.Prelude.{◌≡◌, ◌≤◌, length};
ghost use Rattle.coefficients.specs.Request.{weights_of, starts_of, sizes_of};
ghost use Rattle.made_sets.specs.Made.{made_of};
ghost use Rattle.made_sets.specs.Lent.{lent_by};
ghost use Rattle.store_sets.specs.Inner.{outcome, slots_after, excesses_after};

use coefficients::NotBuilt;
use plans::Request;
pub use steps::side_of;
use steps::{build_in, normal};

// The window size and the precision of a request's set, which stands at the beginning of `part` and `excesses`. The builder works in `doubles`, of which it gets as many as `part` is long, and in 8,192 places of
// `firsts` and `counts`, where the set's starts and sizes are left.
pub fn make(
    request: Request,
    part: &mut [i32],
    excesses: &mut [i64],
    doubles: &mut [f64],
    firsts: &mut [u32],
    counts: &mut [u32],
) -> Result<(u32, u32), NotBuilt>
    requires fact_1 { length excesses.old ≡ 8192 }
    requires fact_2 { length part.old ≤ length doubles.old }
    requires fact_3 { 8192 ≤ length firsts.old }
    requires fact_4 { 8192 ≤ length counts.old }
    ensures answer { result ≡ outcome (made_of request (length part.old)) }
    ensures written { part.new ≡ slots_after (made_of request (length part.old)) part.old }
    ensures written2 { excesses.new ≡ excesses_after (made_of request (length part.old)) excesses.old }
    ensures written3 { doubles.new ≡ lent_by (length part.old) (weights_of request (length part.old) 8192 8192) doubles.old }
    ensures written4 { firsts.new ≡ lent_by 8192 (starts_of request (length part.old) 8192 8192) firsts.old }
    ensures written5 { counts.new ≡ lent_by 8192 (sizes_of request (length part.old) 8192 8192) counts.old }
{
    let built = build_in(request, part.len(), doubles, firsts, counts);
    let window = built?;
    let precision = normal(
        side_of(request),
        window,
        request.output,
        part,
        excesses,
        doubles,
        firsts,
        counts,
    )?;
    Ok((window, precision))
}
