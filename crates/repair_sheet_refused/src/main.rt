// `repair_sheet` with a sheet whose display line 1 has no offer: an excess of -5, and three weights.
#![tactic(auto)]

fn main(rt: HostRuntime) {
    repair_program::run(rt);
}
