// Prints the numbers of a release book over the sheets of all files named (docs/BOOK.md).
#![tactic(auto)]

fn main(rt: HostRuntime) {
    book_program::run(rt);
}
