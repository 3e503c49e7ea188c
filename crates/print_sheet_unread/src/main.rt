// `print_sheet` with a word that it does not know: told with the words allowed.
#![tactic(auto)]

fn main(rt: HostRuntime) {
    sheet_program::run(rt);
}
