// Tells why one output sample has its number, for a sheet and a frame in files (docs/TESTING.md).
#![tactic(auto)]

fn main(rt: HostRuntime) {
    why_program::run(rt);
}
