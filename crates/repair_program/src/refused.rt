use refusal::Numbered;
use repairs::NotOffered;
// Why nothing is repaired: a display line has no offer, or the repaired sheet is too long for the program.

// The answer of the offerer.
pub(crate) fn not_offered(
    rt: HostRuntime,
    answer: Result<(), NotOffered>,
    sizes: &[u32],
    excesses: &[i64],
) {
    let Err(NotOffered::NotFound(line)) = answer else {
        return number(rt, answer.number());
    };
    let i = line.0 as usize;
    match (sizes.get(i), excesses.get(i)) {
        (Some(weights), Some(excess)) => no_offer(rt, line.0, *weights, *excess),
        _ => number(rt, 14),
    }
}

// No. 14: the line, its excess and how many weights it has.
fn no_offer(rt: HostRuntime, line: u32, weights: u32, excess: i64) {
    let off = excess.unsigned_abs();
    let _ = println!(rt; "refused=14 name=NoOffer line={line} excess={excess} weights={weights}");
    let _ = eprintln!(rt;
        "no offer: the total of display line {line} is off by {off}, and too few of its weights can move by 1; it has {weights}"
    );
}

// A refusal by its number alone; no sheet that was read meets one.
pub(crate) fn number(rt: HostRuntime, n: u32) {
    let _ = println!(rt; "refused={n}");
    let _ = eprintln!(rt; "the set of the sheet was refused");
}

// A weight that moved may have one digit more.
pub(crate) fn too_long(rt: HostRuntime) {
    let _ = println!(rt; "toolarge=bytes limit=524288");
    let _ = eprintln!(rt; "the repaired sheet needs more bytes than this program has: 524288");
}
