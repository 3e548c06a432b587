// Votes in range: heard once, and counted.
ghost use Rattle.std.specs.Prelude.{◌≡◌, ◌+◌, ◌*◌, ◌≤◌, true, false, ◌∷◌, length};
ghost use Rattle.limits.specs.Limits.{limits_of};
ghost use Rattle.protocol.specs.Promises.{all};
ghost use Rattle.protocol.specs.Vote.{slot_taken, is_vote_in, count, has_quorum};
ghost use Rattle.protocol.specs.Member.{vote_in_range};
ghost use Rattle.values.specs.Values.{value_of};
ghost use Rattle.wire.specs.Meaning.{kind_number};
ghost use Rattle.cells.specs.Cells.{listed, Only};
ghost use Rattle.tally.specs.Layout.{row_of, votes_size};
ghost use Rattle.tally.specs.Valid.{valid_vote, vote_limits};
ghost use Rattle.tally.specs.Votes.{entry_of, voted, Votes, Holds};

use super::decided::HeardVotes;
use super::slots::{Slot, put_heard};
use super::valid::ValidVote;
use values::Value;
use wire::Kind;

// Kept so: a vote has limits of its own; with a `HeardVotes` each call would have to show that both are the same.
impl ValidVote {
    // Its slot.
    fn slot(self, votes: &[u64]) -> Slot<'_>
        requires votes { length votes.now ≡ votes_size (vote_limits self) }
        ensures limits { result.heard.limits ≡ self.limits }
        ensures votes { result.heard.votes.now ≡ votes.now }
        ensures kind { kind_number result.kind ≡ self.vote.kind }
        ensures period { result.period ≡ self.vote.period }
        ensures step { result.step ≡ self.vote.step }
    {
        let ValidVote { limits, vote } = self;
        Slot {
            heard: HeardVotes { limits, votes },
            kind: Kind::try_from(vote.kind).unwrap(),
            period: vote.period,
            step: vote.step,
        }
    }

    // Its entry: its member's in its slot.
    fn entry(self, votes: &[u64]) -> u64
        requires votes { length votes.now ≡ votes_size (vote_limits self) }
        ensures is { result ≡ entry_of (vote_limits self) (valid_vote self) }
        ensures within { 8 * result + 8 ≤ votes_size (vote_limits self) }
    {
        self.slot(votes).first() + self.vote.from
    }

    // What the vote's member voted for in its slot.
    pub fn voted_in(self, votes: &[u64]) -> Option<Value>
        requires votes { length votes.now ≡ votes_size (vote_limits self) }
        ensures is { (vs : Votes) → Holds (vote_limits self) votes.now vs →
            listed result ≡ voted self.vote.kind self.vote.period self.vote.step self.vote.from vs }
    {
        self.slot(votes).heard_from(self.vote.from)
    }

    // Has the vote's member a vote in its slot already?
    pub fn taken(self, votes: &[u64]) -> bool
        requires votes { length votes.now ≡ votes_size (vote_limits self) }
        ensures is { (vs : Votes) → Holds (vote_limits self) votes.now vs →
            result ≡ slot_taken (valid_vote self) vs }
    {
        self.voted_in(votes).is_some()
    }

    // Was this very vote heard?
    pub fn has_heard(self, votes: &[u64]) -> bool
        requires votes { length votes.now ≡ votes_size (vote_limits self) }
        ensures is { (vs : Votes) → Holds (vote_limits self) votes.now vs →
            result ≡ is_vote_in (valid_vote self) vs }
    {
        self.voted_in(votes) == Some(self.vote.value)
    }

    // Hears a vote whose slot is not taken.
    pub fn hear(self, votes: &mut [u64])
        requires votes { length votes.old ≡ votes_size (vote_limits self) }
        ensures is { (vs : Votes) → Holds (vote_limits self) votes.old vs →
            slot_taken (valid_vote self) vs ≡ false →
            Holds (vote_limits self) votes.new (valid_vote self ∷ vs) }
        ensures only { Only (8 * entry_of (vote_limits self) (valid_vote self))
            (8 * entry_of (vote_limits self) (valid_vote self) + 5) votes.old votes.new }
    {
        let at = self.entry(votes);
        put_heard(votes, at, self.vote.value);
    }

    // How many voted so: the votes of its kind, period, step and value, whoever they are from.
    pub fn count(self, votes: &[u64]) -> u64
        requires votes { length votes.now ≡ votes_size (vote_limits self) }
        ensures is { (vs : Votes) → Holds (vote_limits self) votes.now vs →
            result ≡ count self.vote.kind self.vote.period self.vote.step (value_of self.vote.value) vs }
    {
        self.slot(votes).count_for(self.vote.value)
    }

    // Did a quorum vote so?
    pub fn has_quorum(self, votes: &[u64]) -> bool
        requires votes { length votes.now ≡ votes_size (vote_limits self) }
        ensures is { (vs : Votes) → Holds (vote_limits self) votes.now vs →
            result ≡ has_quorum (vote_limits self) self.vote.kind self.vote.period self.vote.step
            (value_of self.vote.value) vs }
    {
        self.slot(votes).quorum_for(self.vote.value)
    }
}
