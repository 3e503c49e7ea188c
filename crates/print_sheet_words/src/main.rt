// `print_sheet` with words: a decimal edge, an extent by its bits, a filter that does not adapt, the 16-bit store.
#![tactic(auto)]

fn main(rt: HostRuntime) {
    sheet_program::run(rt);
}
