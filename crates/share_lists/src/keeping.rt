// A new set's numbers, starts and sizes, laid in the client's part.
ghost use Rattle.std.specs.Prelude.{◌≡◌, [], ◌∷◌, ◌+◌, ◌*◌, ◌≤◌, length, take};
ghost use Rattle.text.specs.Text.{laid};
ghost use Rattle.share_lists.specs.Inner.{Few, answer_by, numbers_by, laid_by};

use crate::places::{line_base, wide};
use coefficients::NotBuilt;
use plans::Request;
use store_sets::side_of;

// The answer, and the lists with a new set's numbers, starts and sizes; where there is none they are as they were.
pub fn keep(
    made: Result<(u32, u32), NotBuilt>,
    numbers: &mut [u32],
    starts: &mut [u32],
    sizes: &mut [u32],
    client: u32,
    request: Request,
    firsts: &[u32],
    counts: &[u32],
) -> Result<u32, NotBuilt>
    requires numbers_len_1 { length numbers.old ≡ 10 }
    requires numbers_len_2 { client ≤ 1 }
    requires numbers_len_3 { length starts.old ≡ 16384 }
    requires numbers_len_4 { length sizes.old ≡ 16384 }
    requires few_1 { Few made request.output }
    requires few_2 { 8192 ≤ length firsts.now }
    requires few_3 { 8192 ≤ length counts.now }
    ensures answer { result ≡ answer_by made }
    ensures written { numbers.new ≡ numbers_by made client request numbers.old }
    ensures written2 { starts.new ≡ laid_by made client (take request.output firsts.now) starts.old }
    ensures written3 { sizes.new ≡ laid_by made client (take request.output counts.now) sizes.old }
{
    let (window, precision) = made?;
    label(
        numbers,
        client,
        side_of(request),
        request.output,
        window,
        precision,
    );
    let b = line_base(client);
    let n = wide(request.output);
    copy(firsts, n, starts, b);
    copy(counts, n, sizes, b);
    Ok(window)
}

// The four numbers of a client's set.
fn label(numbers: &mut [u32], client: u32, lines: u32, held: u32, window: u32, precision: u32)
    requires fact_1 { length numbers.old ≡ 10 }
    requires fact_2 { client ≤ 1 }
    ensures written { numbers.new ≡ laid numbers.old (client * 5 + 1) (lines ∷ held ∷ window ∷ precision ∷ []) }
{
    let at = client as usize * 5 + 1;
    numbers[at] = lines;
    numbers[at + 1] = held;
    numbers[at + 2] = window;
    numbers[at + 3] = precision;
}

// The first n of a list, laid into another from `at` on.
fn copy(src: &[u32], n: usize, out: &mut [u32], at: usize)
    requires fact_1 { n ≤ length src.now }
    requires fact_2 { at + n ≤ length out.old }
    ensures written { out.new ≡ laid out.old at (take n src.now) }
{
    for k in 0..n {
        out[at + k] = src[k];
    }
}
