// The u16 pass over a raw frame in a file, with the sheet in another (docs/TESTING.md).
#![tactic(auto)]

fn main(rt: HostRuntime) {
    pass_program::run(rt);
}
