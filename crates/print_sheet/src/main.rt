// Prints the weight sheet that its arguments ask for (docs/SHEET.md).
#![tactic(auto)]

fn main(rt: HostRuntime) {
    sheet_program::run(rt);
}
