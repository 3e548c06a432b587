// Events as lines: `vote KIND PERIOD STEP VALUE FROM`, `offer PERIOD RANK VALUE`, `block VALUE`, `time`.
ghost use Rattle.lines.specs.Reads.{Reads, ReadsVote, ReadsProposal};

use crate::fields::{field, last_field};
use decimals::Decimal;
use text::{cut, is_word, number};
use wire::{Event, Proposal, Vote};

// The vote that the words after `vote` say.
fn read_vote(fields: &[u8]) -> Option<Vote>
    ensures is { ReadsVote fields.now result }
{
    let (kind, rest) = field(fields)?;
    let (period, rest) = field(rest)?;
    let (step, rest) = field(rest)?;
    let (word, from) = cut(rest, b' ')?;
    let Decimal(value) = number(word)?;
    let from = last_field(from)?;
    Some(Vote {
        kind,
        period,
        step,
        value,
        from,
    })
}

// The proposal that the words after `offer` say.
fn read_proposal(fields: &[u8]) -> Option<Proposal>
    ensures is { ReadsProposal fields.now result }
{
    let (period, rest) = field(fields)?;
    let (rank, rest) = field(rest)?;
    let Decimal(value) = last_field(rest)?;
    Some(Proposal {
        period,
        rank,
        value,
    })
}

// The event that a line says; none if it says none: if it has another word or space, or a number that is not in
// decimal, has zeros before it, or is too big for its field.
pub fn read_line(line: &[u8]) -> Option<Event>
    ensures is { Reads line.now result }
{
    let Some((name, fields)) = cut(line, b' ') else {
        return is_word(line, b"time").then_some(Event::Timeout);
    };
    // Kept so: in a match on the bytes of the name no fact says which word it is, and the check leaves its arms open.
    if is_word(name, b"vote") {
        return read_vote(fields).map(Event::Vote);
    }
    if is_word(name, b"offer") {
        return read_proposal(fields).map(Event::Proposal);
    }
    if is_word(name, b"block") {
        let Decimal(value) = last_field(fields)?;
        return Some(Event::Block(value));
    }
    None
}
