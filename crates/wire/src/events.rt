// What comes to a member, and its bytes: one byte, then the fields of the vote, proposal or block.
ghost use Rattle.std.specs.Prelude.{◌≡◌, ◌<◌, ◌≤◌, true, length, take, IfOk, Ok, Err, MatchResult};
ghost use Rattle.protocol.specs.Programs.{readable};
ghost use Rattle.wire.specs.Bytes.{event_bytes, event_in, sized, Written};
ghost use Rattle.wire.specs.Meaning.{event_of, event_read};

use crate::votes::{read_proposal, read_vote, write_proposal, write_vote};
use crate::{Proposal, Vote};
use values::{Value, read_value, write_value};

#[derive(Clone, Copy, Debug, PartialEq, Eq)]
pub enum Event {
    Vote(Vote),
    Proposal(Proposal),
    Block(Value),
    Timeout,
}

// There are just so many bytes, or the place: where too few end, or where too many go on.
pub(crate) fn whole(bytes: &[u8], count: usize) -> Result<(), usize>
    ensures is { result ≡ sized Err count bytes.now (Ok tt) }
{
    if bytes.len() == count {
        Ok(())
    } else {
        Err(bytes.len().min(count))
    }
}

// The event that the bytes are, or the place at which they cease to be one.
#[tactic(auto, using(crate::proofs::Fields::fits), unfolding(crate::specs::Bytes::event_in))]
pub fn read_event(bytes: &[u8]) -> Result<Event, usize>
    ensures is { event_read result ≡ event_in bytes.now }
    ensures fits { readable (event_read result) ≡ true }
{
    match bytes.first() {
        Some(0) => {
            whole(bytes, 65)?;
            Ok(Event::Vote(read_vote(&bytes[1..65])))
        }
        Some(1) => {
            whole(bytes, 49)?;
            Ok(Event::Proposal(read_proposal(&bytes[1..49])))
        }
        Some(2) => {
            whole(bytes, 33)?;
            Ok(Event::Block(read_value(&bytes[1..33])))
        }
        Some(3) => {
            whole(bytes, 1)?;
            Ok(Event::Timeout)
        }
        _ => Err(0),
    }
}

// There is room for so many bytes, or how many are needed.
pub(crate) fn room(out: &[u8], needed: usize) -> Result<(), usize>
    ensures is { MatchResult result (λ _. needed ≤ length out.now)
        (λ n. (n ≡ needed) × (length out.now < n)) }
{
    if out.len() < needed {
        Err(needed)
    } else {
        Ok(())
    }
}

// Writes the event's bytes, and gives their number; or gives the number needed, and writes nothing. What is written is
// read back as the event.
#[tactic(auto, using(crate::proofs::Fields::sizes))]
pub fn write_event(out: &mut [u8], event: Event) -> Result<usize, usize>
    ensures is { Written (event_bytes (event_of event)) out.old out.new result }
    ensures back { IfOk result (λ n. event_in (take n out.new) ≡ event_of event) }
{
    match event {
        Event::Vote(vote) => {
            room(out, 65)?;
            out[0] = 0;
            write_vote(&mut out[1..65], vote);
            Ok(65)
        }
        Event::Proposal(proposal) => {
            room(out, 49)?;
            out[0] = 1;
            write_proposal(&mut out[1..49], proposal);
            Ok(49)
        }
        Event::Block(value) => {
            room(out, 33)?;
            out[0] = 2;
            write_value(&mut out[1..33], value);
            Ok(33)
        }
        Event::Timeout => {
            room(out, 1)?;
            out[0] = 3;
            Ok(1)
        }
    }
}
