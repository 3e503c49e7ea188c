// Tells what the sheet in a file says, or where the file stops being a sheet (docs/SHEET.md).
#![tactic(auto)]

fn main(rt: HostRuntime) {
    read_program::run(rt);
}
