// Answers the requests of standard input, a line each (docs/PROTOCOL.md).
#![tactic(auto)]

fn main(rt: HostRuntime) {
    ask_program::run(rt);
}
