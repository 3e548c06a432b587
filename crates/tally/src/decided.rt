// What a quorum is for: the chosen value of a period, and the certified value.
ghost use Rattle.std.specs.Prelude.{◌≡◌, ◌*◌, ◌≤◌, length};
ghost use Rattle.limits.specs.Limits.{limits_of};
ghost use Rattle.protocol.specs.Promises.{all};
ghost use Rattle.protocol.specs.Vote.{cert, has_quorum};
ghost use Rattle.protocol.specs.Member.{chosen_in};
ghost use Rattle.values.specs.Digits.{number_of};
ghost use Rattle.cells.specs.Cells.{listed};
ghost use Rattle.cells.specs.Blocks.{blocks_in};
ghost use Rattle.tally.specs.Layout.{votes_size};
ghost use Rattle.tally.specs.Votes.{Votes, Holds, certified_by};

use super::rows::majority;
use super::slots::Slot;
use cells::has_block;
use limits::Limits;
use values::Value;
use wire::Kind;

// The votes' part of memory, with the limits for which it is laid out.
#[derive(Clone, Copy)]
pub struct HeardVotes<'a> {
    pub limits: Limits,
    pub votes: &'a [u64],
    ghost size: { length votes.now ≡ votes_size (limits_of all limits) },
}

impl HeardVotes<'_> {
    // The value that a quorum of soft votes of the period is for, if its block is among the first `count`.
    // Kept so: `has_block` asks for the part and the count, since adding needs the room behind the blocks here.
    pub fn chosen(self, period: u64, blocks: &[u64], count: u64) -> Option<Value>
        requires blocks { 4 * count ≤ length blocks.now }
        ensures is { (vs : Votes) → Holds (limits_of all self.entry.limits) self.entry.votes.now vs →
            listed result ≡ chosen_in (limits_of all self.entry.limits) period vs vs (blocks_in blocks.now count) }
    {
        if !(1..=self.limits.periods).contains(&period) {
            return None;
        }
        let slot = Slot {
            heard: self,
            kind: Kind::Soft,
            period,
            step: 0,
        };
        let value = majority(slot.row());
        (slot.quorum_for(value) && has_block(blocks, count, value)).then_some(value)
    }

    // Is a quorum certain of this value in this period?
    pub fn certified_in(self, period: u64, value: Value) -> bool
        requires some { 1 ≤ period }
        requires few { period ≤ self.limits.periods }
        ensures is { (vs : Votes) → Holds (limits_of all self.entry.limits) self.entry.votes.now vs →
            result ≡ has_quorum (limits_of all self.entry.limits) cert period 0 (number_of value.limbs) vs }
    {
        let slot = Slot {
            heard: self,
            kind: Kind::Cert,
            period,
            step: 0,
        };
        slot.quorum_for(value)
    }

    // Is a quorum certain of this value in some period?
    pub fn certified(self, value: Value) -> bool
        ensures is { (vs : Votes) → Holds (limits_of all self.entry.limits) self.entry.votes.now vs →
            result
            ≡ certified_by (limits_of all self.entry.limits) (number_of value.limbs) self.entry.limits.periods vs }
    {
        (0..self.limits.periods).any(|before| self.certified_in(before + 1, value))
    }
}
