// The checks, in the order of the refusals: each hands its value on, or none.
// Kept so: each check hands its value on, a member is by value beside memory, by rules of the project: hence `long`.
ghost use Rattle.std.specs.Prelude.{◌≡◌, ℕ, ◌≤◌, true, false, ◌||◌, List, [], length, IfSome, MatchOption, ◌==◌, ◌≢◌};
ghost use Rattle.protocol.specs.Vote.{slot_taken};
ghost use Rattle.protocol.specs.Member.{vote_in_range, in_range, is_some};
ghost use Rattle.protocol.specs.Programs.{memory_size};
ghost use Rattle.protocol.specs.Promises.{all};
ghost use Rattle.limits.specs.Limits.{limits_of};
ghost use Rattle.wire.specs.Meaning.{vote_of, event_of};
ghost use Rattle.moves.specs.Stands.{lim, Stands};
ghost use Rattle.moves.specs.Moves.{OfMember};

use cells::ValidProposal;
use limits::Limits;
use moves::{Member, WithTime, is_taken};
use tally::ValidVote;
use wire::{Event, Vote};

fn event_in_range(limits: Limits, event: Event) -> bool
    ensures is { result ≡ in_range (limits_of all limits) (event_of event) }
{
    match event {
        Event::Vote(vote) => ValidVote::new(limits, vote).is_some(),
        Event::Proposal(proposal) => ValidProposal::new(limits, proposal).is_some(),
        Event::Block(_) | Event::Timeout => true,
    }
}

// 2: an event whose fields are in range.
pub(crate) fn in_range(member: Member, event: Event) -> Option<Event>
    ensures is { MatchOption result (in_range (lim member) (event_of event) ≡ false)
        (λ e. (e ≡ event) × (in_range (lim member) (event_of event) ≡ true)) }
{
    event_in_range(member.limits, event).then_some(event)
}

// 3: an event that comes before the member agreed.
pub(crate) fn undecided(member: Member, event: Event) -> Option<Event>
    ensures is { (mem : List ℕ) (m : OfMember) → Stands member mem m →
        MatchOption result (is_some m.agreed ≡ true) (λ _. m.agreed ≡ []) }
    ensures same { IfSome result (λ e. e ≡ event) }
{
    member.agreed.is_none().then_some(event)
}

// 4: a vote of another member, in a slot that is free.
pub(crate) fn unheard(member: Member, memory: &[u64], vote: Vote) -> Option<Vote>
    requires long { memory_size (lim member) ≤ length memory.now }
    requires vote { vote_in_range (lim member) (vote_of vote) ≡ true }
    ensures is { (m : OfMember) → Stands member memory.now m →
        MatchOption result ((slot_taken (vote_of vote) m.votes || vote.from == m.me) ≡ true)
        (λ _. (slot_taken (vote_of vote) m.votes ≡ false) × (vote.from ≢ m.me)) }
    ensures same { IfSome result (λ v. v ≡ vote) }
{
    let limits = member.limits;
    if is_taken(memory, ValidVote { limits, vote }) || vote.from == member.me {
        return None;
    }
    Some(vote)
}

// 5: a member that has steps and periods left.
// Kept so: `then_some` would make a `WithTime` before the test has said that it has time.
pub(crate) fn with_time(member: Member) -> Option<WithTime>
    ensures is { MatchOption result
        ((member.step ≤ member.limits.steps) × (member.period ≤ member.limits.periods) → ⊥)
        (λ x. x.member ≡ member) }
{
    if member.step > member.limits.steps || member.period > member.limits.periods {
        return None;
    }
    Some(WithTime { member })
}
