// Prints the sheet in a file with every window's total at 2^precision, or the first display line where no offer does that (docs/REPAIRS.md).
#![tactic(auto)]

fn main(rt: HostRuntime) {
    repair_program::run(rt);
}
