// `read_back` with a sheet that has a minus zero: the place, and a mark under it.
#![tactic(auto)]

fn main(rt: HostRuntime) {
    read_program::run(rt);
}
