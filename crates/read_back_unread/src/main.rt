// `read_back` with a file that is not there.
#![tactic(auto)]

fn main(rt: HostRuntime) {
    read_program::run(rt);
}
