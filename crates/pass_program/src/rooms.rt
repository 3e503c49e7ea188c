// The lists of the two passes, each where it is needed and nothing else beside it: one call.
use crate::plan::Plan;
use crate::read_sets::{self, Set};
use crate::said::Ended;
use crate::strips::strips;
use std::fs::File;
use std::io;

// The weights of the u16 pass, for the sheet in a text.
pub(crate) fn judge(rt: HostRuntime, to: &io::Result<File>, text: &[u8]) {
    let mut weights = [0i32; 131072];
    read_sets::judge::<u16, _>(rt, to, text, &mut weights, pass);
}

// Its samples, those that come out, and the bytes of either.
fn pass(rt: HostRuntime, p: Plan<'_>, set: Set<'_, i32>) -> Result<(), Ended> {
    let mut bytes = [0u8; 524288];
    let mut samples = [0u16; 262144];
    let mut out = [0u16; 262144];
    strips(
        rt,
        p,
        set,
        sheet_files::room(&mut bytes),
        &mut samples,
        &mut out,
    )
}

// The weights of the u8 pass.
pub(crate) fn judge_u8(rt: HostRuntime, to: &io::Result<File>, text: &[u8]) {
    let mut weights = [0i16; 131072];
    read_sets::judge::<u8, _>(rt, to, text, &mut weights, pass_u8);
}

// Its samples and those that come out, which are bytes themselves.
fn pass_u8(rt: HostRuntime, p: Plan<'_>, set: Set<'_, i16>) -> Result<(), Ended> {
    let mut samples = [0u8; 524288];
    let mut out = [0u8; 524288];
    strips(
        rt,
        p,
        set,
        &mut [],
        sheet_files::room(&mut samples),
        sheet_files::room(&mut out),
    )
}
