// The u8 pass over a raw frame of bytes, with a sheet of the 16-bit store, and a range of its columns.
#![tactic(auto)]

fn main(rt: HostRuntime) {
    pass_program::run_u8(rt);
}
