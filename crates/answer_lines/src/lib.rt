// The lines that answer requests (docs/PROTOCOL.md): `Output` prints words, numbers and lists, `Show` says how a number is shown. What is printed goes to the
// output's buffer, and from there to standard output, of which no contract can speak. Every function is safe at every argument.
#![tactic(auto)]

mod output;
mod patterns;
mod show;

pub use output::Output;
pub use show::Show;

// The size of an i64.
pub fn size(v: i64) -> u64 {
    v.unsigned_abs()
}
