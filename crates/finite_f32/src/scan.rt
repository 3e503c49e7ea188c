// No. 12, finite samples: a zero times a finite sample is a zero, times another a NaN, and a NaN stays. Sixteen lanes and one for the columns past them are
// carried along, a multiplication a sample and no test, which is vector code; one test comes at the very end.
ghost use Rattle.std.specs.Prelude.{◌≡◌, true, false, ℕ, ◌+◌, ◌*◌, ◌<◌, ◌≤◌, T, length, get_or};
ghost use Rattle.std.specs.Float.{binary32, nan};
ghost use Rattle.std.specs.Float.Ieee.{mul, fits};
ghost use Rattle.finite_f32.specs.Scan.{is_zero_value, flag, Zeros, Flags, Made, Small, Finite};

// One sample more in a lane.
pub(crate) fn zero_step(z: f32, s: f32) -> f32
    ensures value { result ≡ mul binary32 z s }
    ensures t { T (fits binary32 s) }
{
    z * s
}

// Whether a lane is still a zero.
pub fn is_zero(z: f32) -> bool
    requires { T (flag z) }
    ensures { result ≡ is_zero_value z }
{
    z == 0.0
}

// Whether all sixteen are.
pub(crate) fn all_zero(zz: [f32; 16]) -> bool
    requires { (t : ℕ) → t < 16 → T (flag (get_or zz t nan)) }
    ensures t { result ≡ true → (t : ℕ) → t < 16 → T (is_zero_value (get_or zz t nan)) }
    ensures fact { result ≡ false → ((t : ℕ) → t < 16 → T (is_zero_value (get_or zz t nan))) → ⊥ }
{
    let mut z: f32 = 0.0;
    for lane in zz {
        z = zero_step(z, lane);
    }
    is_zero(z)
}

// A sample more in each of N lanes, those from `at` on.
pub(crate) fn zero_steps<const N: usize>(zz: [f32; N], src: &[f32], at: usize) -> [f32; N]
    requires { at + N ≤ length src.now }
    ensures result_len { length result ≡ N }
    ensures made { Made N zz.entry result src.now at }
{
    let mut r = zz;
    for t in 0..N {
        r[t] = zero_step(r[t], src[at + t]);
    }
    r
}

// n times sixteen samples of one line.
fn zeros(z0: [f32; 16], src: &[f32], at: usize, n: usize) -> [f32; 16]
    requires { (length z0 ≡ 16) × Flags 16 z0 × (at + n * 16 ≤ length src.now) }
    ensures result_len { (length result ≡ 16) × Flags 16 result × (Zeros 16 result → Zeros 16 z0) }
    ensures small { Zeros 16 result → Small src.now at 0 (n * 16) }
    ensures zeros { Zeros 16 z0 → Finite src.now at 0 (n * 16) → Zeros 16 result }
{
    let mut zz = z0;
    for q in 0..n {
        let m = zero_steps(zz, src, at + q * 16);
        zz = m;
    }
    zz
}

// The same of the lines from `from` on below `to`.
pub(crate) fn lines16(
    z0: [f32; 16],
    src: &[f32],
    row: usize,
    first: usize,
    n: usize,
    from: usize,
    to: usize,
) -> [f32; 16]
    requires z0_len { (length z0 ≡ 16) × Flags 16 z0 }
    requires row_bound { (row ≤ 32768) × (to ≤ 8192) × (first + n * 16 ≤ row) × (to * row ≤ length src.now) }
    ensures result_len { (length result ≡ 16) × Flags 16 result × (Zeros 16 result → Zeros 16 z0) }
    ensures small { Zeros 16 result → (y : ℕ) → from ≤ y → y < to → Small src.now (y * row + first) 0 (n * 16) }
    ensures zeros { Zeros 16 z0 → ((y : ℕ) → from ≤ y → y < to → Finite src.now (y * row + first) 0 (n * 16)) → Zeros 16 result }
{
    let mut zz = z0;
    for y in from..to {
        let m = zeros(zz, src, y * row + first, n);
        zz = m;
    }
    zz
}
