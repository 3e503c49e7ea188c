// `print_sheet` with a crop that begins before the camera's first line: refused, with the bound that it breaks.
#![tactic(auto)]

fn main(rt: HostRuntime) {
    sheet_program::run(rt);
}
