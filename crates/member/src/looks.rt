// Looking at the member that memory holds.
// Kept so: a member is by value beside lent memory, by a rule of the project: hence `long`.
ghost use Rattle.std.specs.Prelude.{◌≡◌, ◌≤◌, length, IfSome, IfOk, MatchOption, MatchResult};
ghost use Rattle.protocol.specs.Programs.{memory_size};
ghost use Rattle.wire.specs.Meaning.{vote_of};
ghost use Rattle.member.specs.Calls.{IsOpen, IsNotOpen, Looks, SaidIt, BySaid};
ghost use Rattle.member.specs.Header.{Header};
ghost use Rattle.moves.specs.Moves.{OfMember};
ghost use Rattle.moves.specs.Stands.{lim, Stands};

use super::calls::NotOpen;
use super::header::load;
use moves::{Member, is_heard};
use tally::ValidVote;
use wire::Vote;

// The member that this memory holds: its limits, number, period, step, starting value, whether it is free and certain,
// how many blocks it has, and what it agreed on.
pub fn look(memory: &[u64]) -> Option<Member>
    ensures is { MatchOption result (IsNotOpen memory.now) (λ x. Looks memory.now x) }
    ensures header { IfSome result (λ x. Header memory.now x) }
{
    load(memory)
}

// The member that this memory holds, or that it holds none.
pub(crate) fn opened(memory: &[u64]) -> Result<Member, NotOpen>
    ensures is { MatchResult result (λ x. Header memory.now x) (λ _. IsNotOpen memory.now) }
{
    load(memory).ok_or(NotOpen)
}

fn has_said(member: Member, memory: &[u64], vote: Vote) -> bool
    requires long { memory_size (lim member) ≤ length memory.now }
    ensures is { (m : OfMember) → Stands member memory.now m → result ≡ SaidIt (vote_of vote) m }
{
    vote.from == member.me
        && ValidVote::new(member.limits, vote).is_some_and(|valid| is_heard(memory, valid))
}

// Did the member in this memory say this vote?
pub fn said(memory: &[u64], vote: Vote) -> Result<bool, NotOpen>
    ensures is { BySaid memory.now (vote_of vote) result }
    ensures held { IfOk result (λ _. IsOpen memory.now) }
{
    let member = opened(memory)?;
    Ok(has_said(member, memory, vote))
}
