// `release_book` with a bad sheet in the second of three files: the report is for the sheets before it, and the third file is not read.
#![tactic(auto)]

fn main(rt: HostRuntime) {
    book_program::run(rt);
}
