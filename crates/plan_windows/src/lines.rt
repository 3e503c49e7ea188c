// The windows of a plan, display line by display line: the loop of `precompute_coefficients`.
ghost use Rattle.std.specs.Prelude.{◌≡◌, ◌-◌, ◌≤◌, length};
ghost use Rattle.lists.specs.Tab.{tab, front};
ghost use Rattle.plan_windows.specs.Lines.{slot, zero_weight, zero_line, first_blank, weights_in, starts_in, sizes_in};
ghost use Rattle.plans.specs.Inner.{Sound};
ghost use Rattle.plan_windows.specs.Inner.{RowFits, ListsFit, span_of};

use crate::Span;
use line_weights::{finish, lead, range_end, range_start, trim, weigh};
use plans::Plan;
use windows::{CameraLine, DisplayLine, Window};

// The lines from a up to the end, none if it is past.
fn lines_left(a: CameraLine, stop: CameraLine) -> usize
    ensures answer { result ≡ stop.0 - a.0 }
{
    if a.0 < stop.0 {
        return (stop.0 - a.0) as usize;
    }
    0
}

// One window, whole: its row of slots is written, its start, size and total given. A blank one is divided too; the caller then sets all to 0.
fn one_window(p: Plan, line: DisplayLine, row: &mut [f64]) -> Span
    requires { RowFits p line.0 (length row.old) }
    ensures answer { result ≡ span_of p line.0 }
    ensures written { row.new ≡ tab 0 p.window (slot p line.0) }
{
    let i = line.0;
    let f = p.filter;
    let centre = p.near + (i as f64 + 0.5) * p.scale;
    let start = range_start(centre, p.radius);
    let stop = range_end(centre, p.radius, p.side);
    let c = centre - 0.5;
    let first = lead(f, c, p.recip, start, stop);
    let a = first.line;
    let n = lines_left(a, stop);
    let total = weigh(f, c, p.recip, first, n, row);
    let size = trim(n, row) as u32;
    finish(n, total, row);
    Span {
        window: Window {
            start: a,
            size: size,
        },
        total: total,
    }
}

// The first `count` slots set to +0.
fn zero_weights(count: usize, out: &mut [f64])
    requires { count ≤ length out.old }
    ensures written { out.new ≡ front count zero_weight out.old }
{
    out[..count].fill(0.0);
}

// The first `count` starts or sizes set to 0.
fn zero_lines(count: usize, out: &mut [u32])
    requires { count ≤ length out.old }
    ensures written { out.new ≡ front count zero_line out.old }
{
    out[..count].fill(0);
}

// Every window; on the first blank one all is set to 0 and its line given, else the number of lines.
pub fn all_windows(
    p: Plan,
    weights: &mut [f64],
    starts: &mut [u32],
    sizes: &mut [u32],
) -> DisplayLine
    requires fact_1 { Sound p }
    requires fact_2 { ListsFit p (length weights.old) (length starts.old) (length sizes.old) }
    ensures answer { result.0 ≡ first_blank p }
    ensures written { weights.new ≡ weights_in p weights.old }
    ensures written2 { starts.new ≡ starts_in p starts.old }
    ensures written3 { sizes.new ≡ sizes_in p sizes.old }
{
    let n = p.output as usize;
    let w = p.window as usize;
    let slots = n * w;
    let mut a: usize = 0;
    for k in 0..n {
        let e = a + w;
        let span = one_window(p, DisplayLine(k as u32), &mut weights[a..e]);
        if span.total == 0.0 {
            zero_weights(slots, weights);
            zero_lines(n, starts);
            zero_lines(n, sizes);
            return DisplayLine(k as u32);
        }
        starts[k] = span.window.start.0;
        sizes[k] = span.window.size;
        a = e;
    }
    DisplayLine(p.output)
}
