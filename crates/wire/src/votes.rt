// Votes and proposals, and their bytes: kind, period, step, value, from; and period, rank, value.
ghost use Rattle.std.specs.Prelude.{◌≡◌, true, length};
ghost use Rattle.std.specs.Option.{ok_or};
ghost use Rattle.protocol.specs.Member.{got_vote, got_proposal};
ghost use Rattle.protocol.specs.Programs.{readable};
ghost use Rattle.wire.specs.Bytes.{vote_bytes, vote_in, proposal_bytes, proposal_in};
ghost use Rattle.wire.specs.Meaning.{kind_number, kind_of, vote_of, proposal_of};

use crate::UnknownNumber;
use values::{Value, read_number, read_value, write_number, write_value};

// The kinds that are known good.
#[derive(Clone, Copy, Debug, PartialEq, Eq)]
pub enum Kind {
    Soft = 0,
    Cert = 1,
    Next = 2,
    NextNone = 3,
}

impl From<Kind> for u64 {
    ghost from_gives = { λ kind number. number ≡ kind_number kind };

    fn from(kind: Kind) -> u64 {
        kind as u64
    }
}

impl TryFrom<u64> for Kind {
    type Error = UnknownNumber;

    ghost try_from_gives = { λ number result. result ≡ ok_or (kind_of number) (record { 0 = number }) };

    fn try_from(number: u64) -> Result<Kind, UnknownNumber> {
        match number {
            0 => Ok(Kind::Soft),
            1 => Ok(Kind::Cert),
            2 => Ok(Kind::Next),
            3 => Ok(Kind::NextNone),
            _ => Err(UnknownNumber(number)),
        }
    }
}

#[derive(Clone, Copy, Debug, PartialEq, Eq)]
pub struct Vote {
    // Kept so: a vote from outside may have any number here, and is then refused as out of range, not as no event.
    pub kind: u64,
    pub period: u64,
    pub step: u64,
    pub value: Value,
    pub from: u64,
}

#[derive(Clone, Copy, Debug, PartialEq, Eq)]
pub struct Proposal {
    pub period: u64,
    pub rank: u64,
    pub value: Value,
}

#[tactic(auto, unfolding(crate::specs::Bytes::vote_in))]
pub(crate) fn read_vote(part: &[u8]) -> Vote
    requires { length part.now ≡ 64 }
    ensures is { vote_of result ≡ vote_in part.now }
{
    Vote {
        kind: read_number(&part[0..8]),
        period: read_number(&part[8..16]),
        step: read_number(&part[16..24]),
        value: read_value(&part[24..56]),
        from: read_number(&part[56..64]),
    }
}

#[tactic(auto, using(crate::proofs::Fields::fits))]
pub(crate) fn write_vote(part: &mut [u8], vote: Vote)
    requires { length part.old ≡ 64 }
    ensures is { part.new ≡ vote_bytes (vote_of vote) }
    ensures fits { readable (got_vote (vote_of vote)) ≡ true }
{
    write_number(&mut part[0..8], vote.kind);
    write_number(&mut part[8..16], vote.period);
    write_number(&mut part[16..24], vote.step);
    write_value(&mut part[24..56], vote.value);
    write_number(&mut part[56..64], vote.from);
}

#[tactic(auto, unfolding(crate::specs::Bytes::proposal_in))]
pub(crate) fn read_proposal(part: &[u8]) -> Proposal
    requires { length part.now ≡ 48 }
    ensures is { proposal_of result ≡ proposal_in part.now }
{
    Proposal {
        period: read_number(&part[0..8]),
        rank: read_number(&part[8..16]),
        value: read_value(&part[16..48]),
    }
}

#[tactic(auto, using(crate::proofs::Fields::fits))]
pub(crate) fn write_proposal(part: &mut [u8], proposal: Proposal)
    requires { length part.old ≡ 48 }
    ensures is { part.new ≡ proposal_bytes (proposal_of proposal) }
    ensures fits { readable (got_proposal (proposal_of proposal)) ≡ true }
{
    write_number(&mut part[0..8], proposal.period);
    write_number(&mut part[8..16], proposal.rank);
    write_value(&mut part[16..48], proposal.value);
}
