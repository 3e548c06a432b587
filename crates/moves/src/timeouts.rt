// When time is up: the soft vote of a period, and votes to go on.
// Kept so: a member is by value beside lent memory, and handed back, by a rule of the project: hence `long` and `same`.
ghost use Rattle.std.specs.Prelude.{◌≡◌, ℕ, suc, ◌+◌, ◌≤◌, true, false, List, length};
ghost use Rattle.protocol.specs.Vote.{soft, slot_taken};
ghost use Rattle.protocol.specs.Member.{vote_in_range, chosen, own, at_step, soft_value, next_vote};
ghost use Rattle.protocol.specs.Programs.{memory_size};
ghost use Rattle.values.specs.Values.{value_of};
ghost use Rattle.wire.specs.Meaning.{kind_number, vote_of};
ghost use Rattle.cells.specs.Cells.{listed};
ghost use Rattle.moves.specs.Parts.{OnlyIn, of_votes};
ghost use Rattle.moves.specs.Stands.{lim, Stands};
ghost use Rattle.moves.specs.Moves.{OfMember, Same, GoesOn, SaidSoft, SaidNext};

use super::state::{Member, WithTime};
use values::Value;
use wire::{Kind, Vote};

impl Member {
    // How it goes on: with the chosen value; or with none, if it is free; or with its starting value.
    fn goes_on(self, chosen: Option<Value>) -> (Kind, Value)
        ensures is { (mem : List ℕ) (m : OfMember) (s : ℕ) → Stands self mem m →
            next_vote m s (listed chosen) ≡ own m (kind_number result.0) s (value_of result.1) }
        ensures kind { GoesOn result.0 result.1 }
    {
        match (chosen, self.free) {
            (Some(value), _) => (Kind::Next, value),
            (None, true) => (Kind::NextNone, Value::zero()),
            (None, false) => (Kind::Next, self.start.unwrap_or(Value::zero())),
        }
    }
}

impl WithTime {
    // The same member at its next step.
    fn next_step(self) -> Member
        ensures is { (mem : List ℕ) (m : OfMember) → Stands self.member mem m →
            Stands result mem (at_step (suc m.step) m) }
        ensures step { result.step ≡ self.member.step + 1 }
        ensures same { Same self.member result }
    {
        let mut member = self.member;
        member.step += 1;
        member
    }

    // What its soft vote is for: what is proposed, if it is free, else its starting value.
    fn soft_value(self, memory: &[u64]) -> Option<Value>
        requires long { memory_size (lim self.member) ≤ length memory.now }
        ensures is { (m : OfMember) → Stands self.member memory.now m → listed result ≡ soft_value m }
    {
        if self.member.free {
            self.proposed(memory)
        } else {
            self.member.start
        }
    }

    // Time is up at step 0: its soft vote, if there is a value for it.
    pub(crate) fn first_step(self, memory: &mut [u64]) -> (Member, Option<Vote>)
        requires long { memory_size (lim self.member) ≤ length memory.old }
        requires first { self.member.step ≡ 0 }
        ensures is { (m : OfMember) → Stands self.member memory.old m →
            ((x : ℕ) → slot_taken (own m soft 0 x) m.votes ≡ false) →
            SaidSoft result.0 memory.new result.1 m }
        ensures only { OnlyIn of_votes (lim self.member) memory.old memory.new }
        ensures same { Same self.member result.0 }
    {
        let member = self.next_step();
        let Some(value) = self.soft_value(memory) else {
            return (member, None);
        };
        let vote = member.say(memory, Kind::Soft, 0, value);
        (member, Some(vote))
    }

    // Time is up at a later step: a vote to go on.
    pub(crate) fn later_step(self, memory: &mut [u64]) -> (Member, Vote)
        requires long { memory_size (lim self.member) ≤ length memory.old }
        requires some_step { 1 ≤ self.member.step }
        ensures is { (m : OfMember) → Stands self.member memory.old m →
            slot_taken (next_vote m (suc m.step) (chosen (lim self.member) m)) m.votes ≡ false →
            SaidNext (lim self.member) result.0 memory.new result.1 m }
        ensures only { OnlyIn of_votes (lim self.member) memory.old memory.new }
        ensures same { Same self.member result.0 }
        ensures ranged { vote_in_range (lim self.member) (vote_of result.1) ≡ true }
    {
        let member = self.next_step();
        let (kind, value) = self.member.goes_on(self.member.chosen(memory));
        let vote = member.say(memory, kind, member.step, value);
        (member, vote)
    }
}
