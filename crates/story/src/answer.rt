// What a caller takes beside the number of a story.
ghost use Rattle.std.specs.Prelude.{◌≡◌};
ghost use Rattle.story.specs.Answer.{length_of};

use refusal::Refusal;

// How many bytes the story has; 0 where none was written.
pub fn length(told: Result<u64, Refusal>) -> u64
    ensures answer { result ≡ length_of told }
{
    match told {
        Ok(length) => length,
        Err(_) => 0,
    }
}
