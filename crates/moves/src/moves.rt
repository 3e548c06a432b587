// What a member does: each move takes it by value, with its memory, and hands it back.
// Kept so: a member is by value beside lent memory, and handed back, by a rule of the project: hence `long` and `same`.
// Kept so: a `ValidVote` would bring limits of its own, and each call would have to show that they are the member's.
ghost use Rattle.std.specs.Prelude.{◌≡◌, ℕ, ◌+◌, ◌≤◌, true, false, List, length, is_none};
ghost use Rattle.protocol.specs.Vote.{slot_taken};
ghost use Rattle.protocol.specs.Member.{vote_in_range, own, with_vote, now_certain};
ghost use Rattle.protocol.specs.Member.{in_period, silent, onward, certainly};
ghost use Rattle.protocol.specs.Programs.{memory_size};
ghost use Rattle.values.specs.Values.{value_of};
ghost use Rattle.wire.specs.Meaning.{kind_number, vote_of};
ghost use Rattle.cells.specs.Cells.{listed};
ghost use Rattle.moves.specs.Parts.{OnlyIn, of_votes};
ghost use Rattle.moves.specs.Stands.{lim, Stands};
ghost use Rattle.moves.specs.Moves.{OfMember, Same, voted, InRange, own_vote, MayBeCertain, on_to};

use super::parts::{hear_vote, is_quorum};
use super::state::Member;
use tally::ValidVote;
use values::Value;
use wire::{Kind, Vote};

impl Member {
    // Certain in this period.
    fn now_certain(mut self) -> Member
        ensures is { (mem : List ℕ) (m : OfMember) → Stands self mem m → Stands result mem (now_certain m) }
        ensures same { Same self result }
    {
        self.certain = true;
        self
    }

    // A period begins: with a value, or free.
    fn in_period(mut self, period: u64, start: Option<Value>) -> Member
        requires some_period { 1 ≤ period }
        requires few_periods { period ≤ self.limits.periods + 1 }
        ensures is { (mem : List ℕ) (m : OfMember) → Stands self mem m →
            Stands result mem (in_period period (listed start) (is_none start) m) }
        ensures same { Same self result }
    {
        self.period = period;
        self.step = 0;
        self.start = start;
        self.free = start.is_none();
        self.certain = false;
        self
    }

    // A vote of its own, in its period.
    pub(crate) fn own(self, kind: Kind, step: u64, value: Value) -> Vote
        ensures is { (mem : List ℕ) (m : OfMember) → Stands self mem m →
            vote_of result ≡ own m (kind_number kind) step (value_of value) }
        ensures fields { vote_of result ≡ own_vote self (kind_number kind) step (value_of value) }
    {
        Vote {
            kind: kind.into(),
            period: self.period,
            step,
            value,
            from: self.me,
        }
    }

    // Says a vote of its own in a slot that is free, and hears it itself.
    pub(crate) fn say(self, memory: &mut [u64], kind: Kind, step: u64, value: Value) -> Vote
        requires long { memory_size (lim self) ≤ length memory.old }
        requires vote { vote_in_range (lim self) (own_vote self (kind_number kind) step (value_of value)) ≡ true }
        ensures is { (m : OfMember) → Stands self memory.old m →
            slot_taken (own m (kind_number kind) step (value_of value)) m.votes ≡ false →
            Stands self memory.new (with_vote (own m (kind_number kind) step (value_of value)) m) }
        ensures said { (m : OfMember) → Stands self memory.old m →
            vote_of result ≡ own m (kind_number kind) step (value_of value) }
        ensures only { OnlyIn of_votes (lim self) memory.old memory.new }
        ensures ranged { vote_in_range (lim self) (vote_of result) ≡ true }
    {
        let limits = self.limits;
        let vote = self.own(kind, step, value);
        hear_vote(memory, ValidVote { limits, vote });
        vote
    }

    // Onward with this start, or free with none, if the vote is of its period or a later one and has a quorum.
    fn on_to(self, memory: &[u64], vote: Vote, start: Option<Value>) -> Member
        requires long { memory_size (lim self) ≤ length memory.now }
        requires vote { vote_in_range (lim self) (vote_of vote) ≡ true }
        ensures is { (m : OfMember) → Stands self memory.now m →
            Stands result memory.now (on_to (lim self) (vote_of vote) (listed start) (is_none start) m) }
        ensures same { Same self result }
    {
        let limits = self.limits;
        if vote.period < self.period || !is_quorum(memory, ValidVote { limits, vote }) {
            return self;
        }
        self.in_period(vote.period + 1, start)
    }

    // Onward: after a vote to go on, of its period or a later one, that has a quorum.
    pub(crate) fn onward(self, memory: &[u64], vote: Vote) -> Member
        requires long { memory_size (lim self) ≤ length memory.now }
        requires vote { vote_in_range (lim self) (vote_of vote) ≡ true }
        ensures is { (m : OfMember) → Stands self memory.now m →
            Stands result memory.now (onward (lim self) (vote_of vote) (silent m)).member }
        ensures same { Same self result }
    {
        match Kind::try_from(vote.kind) {
            Ok(Kind::Next) => self.on_to(memory, vote, Some(vote.value)),
            Ok(Kind::NextNone) => self.on_to(memory, vote, None),
            Ok(Kind::Soft | Kind::Cert) => self,
            Err(_) => self,
        }
    }

    // Certain: between its soft vote and the first to go on, once in a period, of the chosen value.
    pub(crate) fn certainly(self, memory: &mut [u64]) -> (Member, Option<Vote>)
        requires long { memory_size (lim self) ≤ length memory.old }
        ensures is { (m : OfMember) → Stands self memory.old m → MayBeCertain m →
            (Stands result.0 memory.new (certainly (lim self) (silent m)).member)
            × (voted result.1 ≡ (certainly (lim self) (silent m)).out) }
        ensures only { OnlyIn of_votes (lim self) memory.old memory.new }
        ensures same { Same self result.0 }
        ensures ranged { InRange (lim self) result.1 }
    {
        if self.step != 1 || self.certain {
            return (self, None);
        }
        let Some(value) = self.chosen(memory) else {
            return (self, None);
        };
        let vote = self.say(memory, Kind::Cert, 0, value);
        (self.now_certain(), Some(vote))
    }
}
