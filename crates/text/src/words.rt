// Fixed words.
ghost use Rattle.std.specs.Prelude.{◌≡◌, drop};
ghost use Rattle.text.specs.Words.{common};

// How many bytes a word and the text from a place on begin with in common.
pub fn shared(word: &[u8], text: &[u8], at: usize) -> usize
    ensures answer { result ≡ common (drop at text.now) word.now }
{
    if text.len() <= at {
        return 0;
    }
    for k in 0..word.len() {
        if text.len() - at <= k {
            return k;
        }
        if text[at + k] != word[k] {
            return k;
        }
    }
    word.len()
}
