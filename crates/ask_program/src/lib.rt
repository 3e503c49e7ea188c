// The program `ask`: requests from standard input, an answer a line (docs/PROTOCOL.md). One more group of requests is one more crate and one more line
// of `line`.
#![tactic(auto)]

mod input;
mod line;

use answer_lines::Output;
use input::{Input, Step};

// Answers standard input to its end. The buffers stand here, apart from the loop.
pub fn run(rt: HostRuntime) {
    let mut buffer = [0u8; 262144];
    let mut room = [0u8; 65536];
    serve(Input::new(rt, &mut buffer), Output::new(rt, &mut room));
}

// Nothing says that the input ends, so the turns are counted, up to a number that no run uses up.
fn serve(mut input: Input<'_>, mut out: Output<'_>) {
    for _ in 0..u64::MAX {
        match input.step() {
            Step::Line { from, to } => line::answer(input.bytes(from, to), &mut out),
            Step::TooLong => line::too_long(&mut out),
            Step::More => {}
            Step::End => {
                out.flush();
                return;
            }
        }
    }
}
