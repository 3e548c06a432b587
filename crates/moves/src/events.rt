// What a member does with each event that it takes: the moves in their order. The header is written afterwards.
// Kept so: a member is by value beside lent memory, and handed back, by a rule of the project: hence `long` and `same`.
// Kept so: a vote or proposal in range by type brings limits of its own, to be shown to be the member's at each call.
ghost use Rattle.std.specs.Prelude.{◌≡◌, ℕ, ◌≤◌, true, false, List, ◌++◌, length, IfSome, MatchOption, ◌≢◌};
ghost use Rattle.protocol.specs.Vote.{slot_taken};
ghost use Rattle.protocol.specs.Member.{vote_in_range, got_vote, got_proposal, got_block, timeout, with_blocks, does};
ghost use Rattle.protocol.specs.Programs.{memory_size};
ghost use Rattle.values.specs.Values.{value_of};
ghost use Rattle.wire.specs.Meaning.{vote_of, proposal_of, said_of};
ghost use Rattle.cells.specs.Blocks.{blocks_in};
ghost use Rattle.moves.specs.Parts.{part, OnlyIn, of_blocks, Room, NoRoom};
ghost use Rattle.moves.specs.Stands.{lim, Stands};
ghost use Rattle.moves.specs.Moves.{OfMember, Same, voted};
ghost use Rattle.moves.specs.Events.{Ready, Did, KeptParts};

use super::parts::{hear_vote, keep_proposal};
use super::state::{Member, WithTime};
use cells::ValidProposal;
use tally::ValidVote;
use values::Value;
use wire::{Proposal, Said, Vote};

// The votes said, in order.
fn said(first: Option<Vote>, second: Option<Vote>) -> Said
    ensures is { said_of result ≡ voted first ++ voted second }
{
    match (first, second) {
        (None, None) => Said::Nothing,
        (Some(vote), None) | (None, Some(vote)) => Said::One(vote),
        (Some(vote), Some(other)) => Said::Two(vote, other),
    }
}

impl Member {
    // A vote comes, in a slot that is free: it is heard; then onward, certain, agree.
    pub fn on_vote(self, memory: &mut [u64], vote: Vote) -> (Member, Said)
        requires long { memory_size (lim self) ≤ length memory.old }
        requires vote { vote_in_range (lim self) (vote_of vote) ≡ true }
        ensures is { (m : OfMember) → Stands self memory.old m → Ready (lim self) m →
            slot_taken (vote_of vote) m.votes ≡ false → (vote.from ≢ m.me) →
            Did result.0 memory.new (said_of result.1) (does (lim self) m (got_vote (vote_of vote))) }
        ensures only { KeptParts (lim self) memory.old memory.new }
        ensures same { Same self result.0 }
    {
        let limits = self.limits;
        hear_vote(memory, ValidVote { limits, vote });
        let after = self.onward(memory, vote);
        let (member, cert) = after.certainly(memory);
        let own = member.agree_by_own(memory, cert);
        let agreed = own.agree_by(memory, vote);
        (agreed, said(None, cert))
    }

    // A proposal comes: it is kept if it is the best of its period.
    pub fn on_proposal(self, memory: &mut [u64], proposal: Proposal) -> (Member, Said)
        requires long { memory_size (lim self) ≤ length memory.old }
        requires some { 1 ≤ proposal.period }
        requires few { proposal.period ≤ self.limits.periods }
        ensures is { (m : OfMember) → Stands self memory.old m → Ready (lim self) m →
            Did result.0 memory.new (said_of result.1)
            (does (lim self) m (got_proposal (proposal_of proposal))) }
        ensures only { KeptParts (lim self) memory.old memory.new }
        ensures same { Same self result.0 }
    {
        let limits = self.limits;
        keep_proposal(memory, ValidProposal { limits, proposal });
        (self, Said::Nothing)
    }

    fn with_blocks(mut self, blocks: u64) -> Member
        requires few { blocks ≤ self.limits.blocks }
        ensures is { (mem new xs : List ℕ) (m : OfMember) → Stands self mem m →
            OnlyIn of_blocks (lim self) mem new → blocks_in (part of_blocks (lim self) new) blocks ≡ xs →
            Stands result new (with_blocks xs m) }
        ensures same { Same self result }
    {
        self.blocks = blocks;
        self
    }

    // A block comes: then certain, agree. None, and nothing changes, if there is no room for it.
    pub fn on_block(self, memory: &mut [u64], value: Value) -> Option<(Member, Said)>
        requires long { memory_size (lim self) ≤ length memory.old }
        ensures is { MatchOption result
            (NoRoom (lim self) self.blocks (value_of value) memory.old
            × (memory.new ≡ memory.old))
            (λ d. Room (lim self) self.blocks (value_of value) memory.old ×
            ((m : OfMember) → Stands self memory.old m → Ready (lim self) m →
            Did d.0 memory.new (said_of d.1) (does (lim self) m (got_block (value_of value))))) }
        ensures only { KeptParts (lim self) memory.old memory.new }
        ensures same { IfSome result (λ d. Same self d.0) }
    {
        let count = self.put_block(memory, value)?;
        let after = self.with_blocks(count);
        let (member, cert) = after.certainly(memory);
        let own = member.agree_by_own(memory, cert);
        let agreed = own.agree_on_block(memory, value);
        Some((agreed, said(None, cert)))
    }
}

impl WithTime {
    // Time is up at step 0: its soft vote; then certain, agree.
    fn on_first(self, memory: &mut [u64]) -> (Member, Said)
        requires long { memory_size (lim self.member) ≤ length memory.old }
        requires first { self.member.step ≡ 0 }
        ensures is { (m : OfMember) → Stands self.member memory.old m → Ready (lim self.member) m →
            Did result.0 memory.new (said_of result.1) (does (lim self.member) m timeout) }
        ensures only { KeptParts (lim self.member) memory.old memory.new }
        ensures same { Same self.member result.0 }
    {
        let (after, soft) = self.first_step(memory);
        let (member, cert) = after.certainly(memory);
        let own = member.agree_by_own(memory, cert);
        (own, said(soft, cert))
    }

    // Time is up at a later step: a vote to go on; then onward by it.
    fn on_later(self, memory: &mut [u64]) -> (Member, Said)
        requires long { memory_size (lim self.member) ≤ length memory.old }
        requires some_step { 1 ≤ self.member.step }
        ensures is { (m : OfMember) → Stands self.member memory.old m → Ready (lim self.member) m →
            Did result.0 memory.new (said_of result.1) (does (lim self.member) m timeout) }
        ensures only { KeptParts (lim self.member) memory.old memory.new }
        ensures same { Same self.member result.0 }
    {
        let (after, vote) = self.later_step(memory);
        let member = after.onward(memory, vote);
        (member, Said::One(vote))
    }

    // Time is up.
    pub fn on_timeout(self, memory: &mut [u64]) -> (Member, Said)
        requires long { memory_size (lim self.member) ≤ length memory.old }
        ensures is { (m : OfMember) → Stands self.member memory.old m → Ready (lim self.member) m →
            Did result.0 memory.new (said_of result.1) (does (lim self.member) m timeout) }
        ensures only { KeptParts (lim self.member) memory.old memory.new }
        ensures same { Same self.member result.0 }
    {
        // Kept so: the rule itself has two cases, by the step at which time is up.
        if self.member.step == 0 {
            self.on_first(memory)
        } else {
            self.on_later(memory)
        }
    }
}
