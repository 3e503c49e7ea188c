// What a caller takes beside the number of the f32 pass.
ghost use Rattle.std.specs.Prelude.{◌≡◌};
ghost use Rattle.vertical.specs.PassedF32.{infinite_in};

use refusal::Refusal;

// How many samples of the output are infinite; 0 where none was written.
pub fn infinite(passed: Result<u32, Refusal>) -> u32
    ensures answer { result ≡ infinite_in passed }
{
    match passed {
        Ok(infinite) => infinite,
        Err(_) => 0,
    }
}
