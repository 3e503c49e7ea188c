// `coefficients`: weight sets. `build` judges a `Request` (No. 16, then 1 to 8) and writes for each display line the window of camera lines that it is made of:
// the window's start, its size and its weights, in `window` slots a line. Operation by operation as `precompute_coefficients` of the Rust, in three
// steps: `plans` judges and plans, `plan_windows` fills the lists window by window, `line_weights` weighs the lines of one window.
#![tactic(auto)]

mod answer;

ghost use Rattle.std.specs.Prelude.{◌≡◌, length};
ghost use Rattle.coefficients.specs.Request.{built_of, weights_of, starts_of, sizes_of};

pub use answer::{line, window_size};
use plan_windows::all_windows;
use plans::{Request, prepare};
use refusal::Refusal;

// Why no set was built: the first display line whose window is blank, which is No. 8, or another refusal.
#[derive(Clone, Copy)]
pub enum NotBuilt {
    Blank(windows::DisplayLine),
    Refused(Refusal),
}

// The window size of the weight set of any request, built in any three lists, or why there is none. Slots past those asked for are never touched.
pub fn build(
    request: Request,
    weights: &mut [f64],
    starts: &mut [u32],
    sizes: &mut [u32],
) -> Result<u32, NotBuilt>
    ensures answer { result ≡ built_of request (length weights.old) (length starts.old) (length sizes.old) }
    ensures written { weights.new ≡ weights_of request (length weights.old) (length starts.old) (length sizes.old) weights.old }
    ensures written2 { starts.new ≡ starts_of request (length weights.old) (length starts.old) (length sizes.old) starts.old }
    ensures written3 { sizes.new ≡ sizes_of request (length weights.old) (length starts.old) (length sizes.old) sizes.old }
{
    let p = prepare(request)?;
    let n = p.output as usize;
    let w = p.window as usize;
    if weights.len() < n * w {
        return Err(NotBuilt::Refused(Refusal::TooFewSlots));
    }
    if starts.len() < n {
        return Err(NotBuilt::Refused(Refusal::TooFewSlots));
    }
    if sizes.len() < n {
        return Err(NotBuilt::Refused(Refusal::TooFewSlots));
    }
    let line = all_windows(p, weights, starts, sizes);
    if line.0 < p.output {
        return Err(NotBuilt::Blank(line));
    }
    Ok(p.window)
}
