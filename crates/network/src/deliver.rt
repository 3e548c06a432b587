// Delivering events to honest members.
ghost use Rattle.std.specs.Prelude.{◌≡◌, vec_len};
ghost use Rattle.wire.specs.Meaning.{event_of, vote_of};
ghost use Rattle.network.specs.Calls.{limits_in, faulty_in, memory_in, ByDeliver};
ghost use Rattle.network.specs.Memory.{may_come, may_happen};

use super::errors::DeliverError;
use super::parts::take_in;
use super::state::Network;
use wire::{Answer, Event, Vote};

impl Network {
    // Is the vote in a faulty member's name, or did the honest member say it?
    fn can_come(&self, vote: Vote) -> bool
        ensures is { result ≡ may_come (limits_in self.now) (faulty_in self.now)
            (memory_in self.now) (vote_of vote) }
    {
        if self.faulty.has(vote.from) {
            return true;
        }
        if vote.from >= self.limits.members {
            return false;
        }
        member::said(self.part(vote.from), vote).unwrap()
    }

    fn can_happen(&self, event: Event) -> bool
        ensures is { result ≡ may_happen (limits_in self.now) (faulty_in self.now)
            (memory_in self.now) (event_of event) }
    {
        match event {
            Event::Vote(vote) => self.can_come(vote),
            Event::Proposal(_) | Event::Block(_) | Event::Timeout => true,
        }
    }

    // The answer of an honest member to an event; or why the event does not come to it, and then nothing changes.
    pub fn deliver(&mut self, to: u64, event: Event) -> Result<Answer, DeliverError>
        ensures is { ByDeliver self.old to (event_of event) self.new result }
        ensures kept { (self.new.limits ≡ self.old.limits) × ((self.new.faulty ≡ self.old.faulty)
            × (vec_len self.new.memory ≡ vec_len self.old.memory)) }
    {
        if to >= self.limits.members {
            return Err(DeliverError::NotMember);
        }
        if self.faulty.has(to) {
            return Err(DeliverError::Faulty);
        }
        if !self.can_happen(event) {
            return Err(DeliverError::NotSaid);
        }
        let span = self.span(to);
        Ok(take_in(self.memory.as_mut_slice(), span, event).unwrap())
    }
}
