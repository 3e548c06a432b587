// The parts of a member's memory after its header, each lent to the functions that know it.
// Kept so: memory is lent as a slice beside a value, by a rule of the project, so each function asks that it is long.
ghost use Rattle.std.specs.Prelude.{◌≡◌, ℕ, ◌≤◌, false, List, ◌∷◌, length};
ghost use Rattle.protocol.specs.Vote.{slot_taken, is_vote_in, has_quorum};
ghost use Rattle.protocol.specs.Member.{is_in, chosen, proposed, keep_best};
ghost use Rattle.protocol.specs.Programs.{memory_size};
ghost use Rattle.protocol.specs.Promises.{all};
ghost use Rattle.limits.specs.Limits.{limits_of};
ghost use Rattle.values.specs.Values.{value_of};
ghost use Rattle.cells.specs.Cells.{listed};
ghost use Rattle.cells.specs.Proposals.{Proposals, Proposes, proposal_limits, valid_proposal};
ghost use Rattle.tally.specs.Valid.{valid_vote, vote_limits};
ghost use Rattle.tally.specs.Votes.{Votes, Holds, certified_by};
ghost use Rattle.moves.specs.Parts.{votes_end, proposals_end, blocks_end, part, OnlyIn};
ghost use Rattle.moves.specs.Parts.{of_votes, of_proposals, of_blocks, PutBlock};
ghost use Rattle.moves.specs.Stands.{lim, Stands};
ghost use Rattle.moves.specs.Moves.{OfMember};

use super::state::{Member, WithTime};
use cells::{ValidProposal, add_block, has_block, keep, proposed_for};
use limits::Limits;
use std::ops::Range;
use tally::{HeardVotes, ValidVote, blocks_size, proposals_size, votes_size};
use values::Value;

// The part of the votes: it lies behind the header.
fn votes_range(limits: Limits) -> Range<usize>
    ensures start { result.start ≡ 64 }
    ensures end { result.end ≡ votes_end (limits_of all limits) }
{
    let end = 64 + votes_size(limits) as usize;
    64..end
}

// The part of the proposals: it lies behind the votes.
fn proposals_range(limits: Limits) -> Range<usize>
    ensures start { result.start ≡ votes_end (limits_of all limits) }
    ensures end { result.end ≡ proposals_end (limits_of all limits) }
{
    let start = votes_range(limits).end;
    let end = start + proposals_size(limits) as usize;
    start..end
}

// The part of the blocks: it lies behind the proposals.
// Kept so: one function for both would take a place and a size, and ask that their sum fits; these ask nothing.
fn blocks_range(limits: Limits) -> Range<usize>
    ensures start { result.start ≡ proposals_end (limits_of all limits) }
    ensures end { result.end ≡ blocks_end (limits_of all limits) }
{
    let start = proposals_range(limits).end;
    let end = start + blocks_size(limits) as usize;
    start..end
}

// Has the vote's member a vote in its slot already?
pub fn is_taken(memory: &[u64], vote: ValidVote) -> bool
    requires long { memory_size (vote_limits vote) ≤ length memory.now }
    ensures is { (vs : Votes) → Holds (vote_limits vote) (part of_votes (vote_limits vote) memory.now) vs →
        result ≡ slot_taken (valid_vote vote) vs }
{
    vote.taken(&memory[votes_range(vote.limits)])
}

// Was this very vote heard?
pub fn is_heard(memory: &[u64], vote: ValidVote) -> bool
    requires long { memory_size (vote_limits vote) ≤ length memory.now }
    ensures is { (vs : Votes) → Holds (vote_limits vote) (part of_votes (vote_limits vote) memory.now) vs →
        result ≡ is_vote_in (valid_vote vote) vs }
{
    vote.has_heard(&memory[votes_range(vote.limits)])
}

// Is there a quorum of votes such as this?
pub(crate) fn is_quorum(memory: &[u64], vote: ValidVote) -> bool
    requires long { memory_size (vote_limits vote) ≤ length memory.now }
    ensures is { (vs : Votes) → Holds (vote_limits vote) (part of_votes (vote_limits vote) memory.now) vs →
        result ≡ has_quorum (vote_limits vote) vote.vote.kind vote.vote.period vote.vote.step
        (value_of vote.vote.value) vs }
{
    vote.has_quorum(&memory[votes_range(vote.limits)])
}

// Hears a vote whose slot is not taken.
pub(crate) fn hear_vote(memory: &mut [u64], vote: ValidVote)
    requires long { memory_size (vote_limits vote) ≤ length memory.old }
    ensures is { (vs : Votes) → Holds (vote_limits vote) (part of_votes (vote_limits vote) memory.old) vs →
        slot_taken (valid_vote vote) vs ≡ false →
        Holds (vote_limits vote) (part of_votes (vote_limits vote) memory.new) (valid_vote vote ∷ vs) }
    ensures only { OnlyIn of_votes (vote_limits vote) memory.old memory.new }
{
    vote.hear(&mut memory[votes_range(vote.limits)]);
}

// Keeps a proposal, if it is the best of its period.
pub(crate) fn keep_proposal(memory: &mut [u64], proposal: ValidProposal)
    requires long { memory_size (proposal_limits proposal) ≤ length memory.old }
    ensures is { (os : Proposals) →
        Proposes (proposal_limits proposal) (part of_proposals (proposal_limits proposal) memory.old) os →
        Proposes (proposal_limits proposal) (part of_proposals (proposal_limits proposal) memory.new)
        (keep_best (valid_proposal proposal) os) }
    ensures only { OnlyIn of_proposals (proposal_limits proposal) memory.old memory.new }
{
    keep(&mut memory[proposals_range(proposal.limits)], proposal);
}

impl Member {
    // The chosen value of its period.
    pub(crate) fn chosen(self, memory: &[u64]) -> Option<Value>
        requires long { memory_size (lim self) ≤ length memory.now }
        ensures is { (m : OfMember) → Stands self memory.now m → listed result ≡ chosen (lim self) m }
    {
        let limits = self.limits;
        let votes = &memory[votes_range(limits)];
        let blocks = &memory[blocks_range(limits)];
        HeardVotes { limits, votes }.chosen(self.period, blocks, self.blocks)
    }

    // Is a quorum certain of this value in some period?
    pub(crate) fn is_certified(self, memory: &[u64], value: Value) -> bool
        requires long { memory_size (lim self) ≤ length memory.now }
        ensures is { (m : OfMember) → Stands self memory.now m →
            result ≡ certified_by (lim self) (value_of value) self.limits.periods m.votes }
    {
        let limits = self.limits;
        let votes = &memory[votes_range(limits)];
        HeardVotes { limits, votes }.certified(value)
    }

    // Is the block of this value here?
    pub(crate) fn is_here(self, memory: &[u64], value: Value) -> bool
        requires long { memory_size (lim self) ≤ length memory.now }
        ensures is { (m : OfMember) → Stands self memory.now m → result ≡ is_in (value_of value) m.blocks }
    {
        has_block(&memory[blocks_range(self.limits)], self.blocks, value)
    }

    // Adds a block, unless it is here; how many there are then. None, and nothing changes, if there is no room for it.
    pub(crate) fn put_block(self, memory: &mut [u64], value: Value) -> Option<u64>
        requires long { memory_size (lim self) ≤ length memory.old }
        ensures is { PutBlock (lim self) self.blocks (value_of value) memory.old memory.new result }
        ensures only { OnlyIn of_blocks (lim self) memory.old memory.new }
    {
        add_block(&mut memory[blocks_range(self.limits)], self.blocks, value)
    }
}

impl WithTime {
    // The value proposed for its period.
    pub(crate) fn proposed(self, memory: &[u64]) -> Option<Value>
        requires long { memory_size (lim self.member) ≤ length memory.now }
        ensures is { (m : OfMember) → Stands self.member memory.now m → listed result ≡ proposed m.period m.proposals }
    {
        let Member { limits, period, .. } = self.member;
        proposed_for(&memory[proposals_range(limits)], limits, period)
    }
}
