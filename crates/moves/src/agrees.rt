// When a member agrees: on the value of a cert vote, or of a block.
// Kept so: a member is by value beside lent memory, and handed back, by a rule of the project: hence `long` and `same`.
// Kept so: a `ValidVote` would bring limits of its own, and each call would have to show that they are the member's.
ghost use Rattle.std.specs.Prelude.{◌≡◌, ℕ, ◌≤◌, true, List, length};
ghost use Rattle.protocol.specs.Member.{vote_in_range, having_agreed};
ghost use Rattle.protocol.specs.Programs.{memory_size};
ghost use Rattle.values.specs.Values.{value_of};
ghost use Rattle.wire.specs.Meaning.{vote_of};
ghost use Rattle.moves.specs.Stands.{lim, Stands};
ghost use Rattle.moves.specs.Moves.{OfMember, Same, voted, InRange, agree_by, agree_each, agree_block};

use super::parts::is_quorum;
use super::state::Member;
use tally::ValidVote;
use values::Value;
use wire::{Kind, Vote};

impl Member {
    pub(crate) fn having_agreed(mut self, value: Value) -> Member
        ensures is { (mem : List ℕ) (m : OfMember) → Stands self mem m →
            Stands result mem (having_agreed (value_of value) m) }
        ensures same { Same self result }
    {
        self.agreed = Some(value);
        self
    }

    // Agrees on the value of a cert vote that has a quorum and whose block is here, if it has not agreed.
    pub(crate) fn agree_by(self, memory: &[u64], vote: Vote) -> Member
        requires long { memory_size (lim self) ≤ length memory.now }
        requires vote { vote_in_range (lim self) (vote_of vote) ≡ true }
        ensures is { (m : OfMember) → Stands self memory.now m →
            Stands result memory.now (agree_by (lim self) (vote_of vote) m) }
        ensures same { Same self result }
    {
        let limits = self.limits;
        // Kept so: a vote's kind is a number, and only one kind is asked for here.
        if self.agreed.is_none()
            && vote.kind == u64::from(Kind::Cert)
            && is_quorum(memory, ValidVote { limits, vote })
            && self.is_here(memory, vote.value)
        {
            return self.having_agreed(vote.value);
        }
        self
    }

    // The same by a vote that it may have said.
    pub(crate) fn agree_by_own(self, memory: &[u64], said: Option<Vote>) -> Member
        requires long { memory_size (lim self) ≤ length memory.now }
        requires said { InRange (lim self) said }
        ensures is { (m : OfMember) → Stands self memory.now m →
            Stands result memory.now (agree_each (lim self) (voted said) m) }
        ensures same { Same self result }
    {
        match said {
            Some(vote) => self.agree_by(memory, vote),
            None => self,
        }
    }

    // Agrees on the value of a block, if in some period a quorum is certain of it and it has not agreed.
    pub(crate) fn agree_on_block(self, memory: &[u64], value: Value) -> Member
        requires long { memory_size (lim self) ≤ length memory.now }
        ensures is { (m : OfMember) → Stands self memory.now m →
            Stands result memory.now (agree_block (lim self) (value_of value) m) }
        ensures same { Same self result }
    {
        if self.agreed.is_none() && self.is_certified(memory, value) {
            return self.having_agreed(value);
        }
        self
    }
}
