// How many samples of the output are infinite. Where the scan of the rows found every one finite, none is; else they are counted.
ghost use Rattle.std.specs.Prelude.{◌≡◌, true, false, cond, ℕ, ◌^◌, ◌<◌, ◌≤◌, length, get_or};
ghost use Rattle.std.specs.Float.{nan};
ghost use Rattle.numbers.specs.Whole.{is_infinite};
ghost use Rattle.vertical.specs.F32.{infinities as infinitiesOf};

// 1 for an infinity, of either sign. A NaN equals neither.
fn one(x: f32) -> u32
    ensures { result ≡ cond (is_infinite x) 1 0 }
{
    let inf: f32 = 1.0 / 0.0;
    if (x == inf) | (x == -inf) {
        return 1;
    }
    0
}

fn infinities(out: &[f32]) -> u32
    requires { length out.now < 2 ^ 32 }
    ensures { result ≡ infinitiesOf out.now }
{
    let mut n: u32 = 0;
    for sample in out {
        n += one(*sample);
    }
    n
}

pub fn counted(finite: bool, out: &[f32]) -> u32
    requires out_len_bound { length out.now < 2 ^ 32 }
    requires nan_value { finite ≡ true → (k : ℕ) → k < length out.now → is_infinite (get_or out.now k nan) ≡ false }
    ensures { result ≡ infinitiesOf out.now }
{
    if finite {
        return 0;
    }
    infinities(out)
}
