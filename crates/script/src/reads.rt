// The lines of a file, and what they say after the first: `faulty I`, and `I EVENT`.
ghost use Rattle.script.specs.Files.{FirstLine};
ghost use Rattle.script.specs.Reads.{ReadsFaulty, ReadsDelivery};

use lines::read_line;
use text::{cut, is_word, number};
use wire::Event;

// The first line of a text, without its line feed, and what follows it; none where the text has ended. A last line
// without its line feed is a line too.
pub fn first_line(text: &[u8]) -> Option<(&[u8], &[u8])>
    ensures is { FirstLine text.now result }
{
    if text.is_empty() {
        return None;
    }
    Some(cut(text, b'\n').unwrap_or((text, b"")))
}

// Why a line names no faulty member.
#[derive(Clone, Copy, PartialEq, Eq, Debug)]
pub enum FaultyError {
    // its first word is not `faulty`
    NotFaulty,
    // what follows that word is not one number below 2^64 in decimal, without zeros before it
    NotNumber,
}

// The member that a line `faulty I` names, or why it names none.
pub fn read_faulty(line: &[u8]) -> Result<u64, FaultyError>
    ensures is { ReadsFaulty line.now result }
{
    let (name, member) = cut(line, b' ').unwrap_or((line, b""));
    if !is_word(name, b"faulty") {
        return Err(FaultyError::NotFaulty);
    }
    number(member).ok_or(FaultyError::NotNumber)
}

// To which number which event comes, by a line `I EVENT`; none if it is no such line.
pub fn read_delivery(line: &[u8]) -> Option<(u64, Event)>
    ensures is { ReadsDelivery line.now result }
{
    let (to, event) = cut(line, b' ')?;
    let to = number(to)?;
    let event = read_line(event)?;
    Some((to, event))
}
