// The fields of a line: numbers and values in decimal, with a space after each but the last.
ghost use Rattle.lines.specs.Fields.{Field, Last};

use text::{FromDigits, cut, number};

// The number that comes first, and what follows the space after it.
pub(crate) fn field<N: FromDigits>(text: &[u8]) -> Option<(N, &[u8])>
    ensures is { Field N.end N.value text.now result }
{
    let (word, rest) = cut(text, b' ')?;
    let number = number(word)?;
    Some((number, rest))
}

// The number that is all of the text.
pub(crate) fn last_field<N: FromDigits>(text: &[u8]) -> Option<N>
    ensures is { Last N.end N.value text.now result }
{
    number(text)
}
