// Words of a line.
ghost use Rattle.std.specs.Prelude.{◌≡◌, [], ◌∷◌, Decides, MatchOption};
ghost use Rattle.text.specs.Words.{pieces};

// The first piece of a text, up to the separator, and what follows that; none where there is no separator.
pub fn cut(text: &[u8], sep: u8) -> Option<(&[u8], &[u8])>
    ensures is { MatchOption result (pieces sep text.now ≡ text.now ∷ [])
        (λ x. pieces sep text.now ≡ x.0.now ∷ pieces sep x.1.now) }
{
    let at = text.iter().position(|c| *c == sep)?;
    Some((&text[..at], &text[at + 1..]))
}

// Is this the word of this name?
// Kept so: std says of slices that their elements are equal; here it is said once that the words are the same.
pub fn is_word(word: &[u8], name: &[u8]) -> bool
    ensures is { Decides result (word.now ≡ name.now) }
{
    word == name
}
