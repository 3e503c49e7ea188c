// The samples that the pass writes, sixteen at a time before they are stored: four lanes, a multiplication for four samples, and one test at the very end.
ghost use Rattle.std.specs.Prelude.{◌≡◌, true, length};
ghost use Rattle.finite_f32.specs.Scan.{Zeros, Flags, Small};

use super::scan::{is_zero, zero_step, zero_steps};

// Sixteen samples more, four to a lane.
pub fn sixteen(zz: [f32; 4], ys: [f32; 16]) -> [f32; 4]
    requires { (length zz ≡ 4) × Flags 4 zz }
    ensures result_len { (length result ≡ 4) × Flags 4 result × (Zeros 4 result → Zeros 4 zz) }
    ensures small { Zeros 4 result → Small ys 0 0 16 }
{
    let a = zero_steps(zz, &ys, 0);
    let b = zero_steps(a, &ys, 4);
    let c = zero_steps(b, &ys, 8);
    zero_steps(c, &ys, 12)
}

// Whether all four lanes are zeros still.
pub fn all_four(zz: [f32; 4]) -> bool
    requires { Flags 4 zz }
    ensures { result ≡ true → Zeros 4 zz }
{
    is_zero(zero_step(zero_step(zero_step(zz[0], zz[1]), zz[2]), zz[3]))
}
