// `why_pixel` with a column that the frame does not have: the place, and where the sheet and the frame end.
#![tactic(auto)]

fn main(rt: HostRuntime) {
    why_program::run(rt);
}
