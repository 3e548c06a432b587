// Slots, each of a kind, a period and a step: what a member voted for in one, and whether a quorum is for a value.
ghost use Rattle.std.specs.Prelude.{◌≡◌, ℕ, ◌+◌, ◌*◌, ◌<◌, ◌≤◌, true, [], ◌∷◌, length, slice_index_or};
ghost use Rattle.limits.specs.Limits.{limits_of};
ghost use Rattle.protocol.specs.Promises.{all};
ghost use Rattle.protocol.specs.Vote.{count, has_quorum};
ghost use Rattle.values.specs.Digits.{number_of};
ghost use Rattle.wire.specs.Meaning.{kind_number};
ghost use Rattle.cells.specs.Cells.{listed, Only};
ghost use Rattle.tally.specs.Layout.{slot_place, row_of, slot_in_range, votes_size};
ghost use Rattle.tally.specs.Votes.{heard_at, voted, Votes, Holds};

use super::decided::HeardVotes;
use super::rows::{count_in, heard, quorum_in};
use cells::put_value;
use values::Value;
use wire::Kind;

// In range for the limits of the votes that it is of, by type: so nobody has to look again.
#[derive(Clone, Copy)]
pub(crate) struct Slot<'a> {
    pub(crate) heard: HeardVotes<'a>,
    pub(crate) kind: Kind,
    pub(crate) period: u64,
    pub(crate) step: u64,
    ghost in_range: { slot_in_range (limits_of all heard.limits) (kind_number kind) period step ≡ true },
}

impl<'a> Slot<'a> {
    // Which of its period's slots it is.
    fn place(self) -> u64
        ensures is { result
            ≡ slot_place (limits_of all self.entry.heard.limits) (kind_number self.entry.kind) self.entry.step }
    {
        match self.kind {
            Kind::Soft => 0,
            Kind::Cert => 1,
            Kind::Next => self.step,
            Kind::NextNone => self.step + self.heard.limits.steps,
        }
    }

    // Its first entry.
    pub(crate) fn first(self) -> u64
        ensures is { result ≡ row_of (limits_of all self.entry.heard.limits) (kind_number self.entry.kind)
            self.entry.period self.entry.step }
        ensures within { 8 * (result + self.entry.heard.limits.members)
            ≤ votes_size (limits_of all self.entry.heard.limits) }
    {
        let slots = 2 * self.heard.limits.steps + 2;
        ((self.period - 1) * slots + self.place()) * self.heard.limits.members
    }

    // Its row: an entry for each member.
    pub(crate) fn row(self) -> &'a [[u64; 8]]
        ensures long { length result.now ≡ self.entry.heard.limits.members }
        ensures entries { (i : ℕ) → i < self.entry.heard.limits.members → heard_at (slice_index_or result.now i []) 0
            ≡ heard_at self.entry.heard.votes.now
            (row_of (limits_of all self.entry.heard.limits) (kind_number self.entry.kind) self.entry.period
            self.entry.step + i) }
    {
        let HeardVotes { limits, votes } = self.heard;
        let (entries, _) = votes.as_chunks::<8>();
        let first = self.first() as usize;
        &entries[first..first + limits.members as usize]
    }

    // What a member voted for in it.
    pub(crate) fn heard_from(self, from: u64) -> Option<Value>
        requires from { from < self.heard.limits.members }
        ensures is { (vs : Votes) → Holds (limits_of all self.entry.heard.limits) self.entry.heard.votes.now vs →
            listed result ≡ voted (kind_number self.entry.kind) self.entry.period self.entry.step from vs }
    {
        heard(&self.row()[from as usize])
    }

    // How many members voted for this value in it.
    pub(crate) fn count_for(self, value: Value) -> u64
        ensures is { (vs : Votes) → Holds (limits_of all self.entry.heard.limits) self.entry.heard.votes.now vs →
            result
            ≡ count (kind_number self.entry.kind) self.entry.period self.entry.step (number_of value.limbs) vs }
    {
        count_in(self.row(), value)
    }

    // Is a quorum of it for this value?
    pub(crate) fn quorum_for(self, value: Value) -> bool
        ensures is { (vs : Votes) → Holds (limits_of all self.entry.heard.limits) self.entry.heard.votes.now vs →
            result ≡ has_quorum (limits_of all self.entry.heard.limits) (kind_number self.entry.kind)
            self.entry.period self.entry.step (number_of value.limbs) vs }
    {
        quorum_in(self.row(), self.heard.limits, value)
    }
}

// Writes what was heard at an entry.
// Kept so: of what is written through `as_chunks_mut` only the length is known after it; `only` says the places.
pub(crate) fn put_heard(votes: &mut [u64], at: u64, value: Value)
    requires within { 8 * at + 8 ≤ length votes.old }
    ensures is { heard_at votes.new at ≡ number_of value.limbs ∷ [] }
    ensures only { Only (8 * at) (8 * at + 5) votes.old votes.new }
{
    let start = 8 * at as usize;
    votes[start] = 1;
    put_value(votes, start + 1, value);
}
