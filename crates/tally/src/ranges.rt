// Which votes are in range, by their kind.
ghost use Rattle.std.specs.Prelude.{◌≡◌, ◌+◌, ◌≤◌, false, Decides, MatchOption};
ghost use Rattle.limits.specs.Limits.{limits_of};
ghost use Rattle.protocol.specs.Member.{vote_in_range};
ghost use Rattle.protocol.specs.Promises.{all};
ghost use Rattle.wire.specs.Meaning.{vote_of};

use super::valid::ValidVote;
use limits::Limits;
use wire::{Kind, Vote};

// A step at which members vote to go on.
fn is_later_step(limits: Limits, step: u64) -> bool
    ensures is { Decides result ((2 ≤ step) × (step ≤ limits.steps + 1)) }
{
    (2..=limits.steps + 1).contains(&step)
}

pub(crate) fn vote_in_range(limits: Limits, vote: Vote) -> bool
    ensures is { result ≡ vote_in_range (limits_of all limits) (vote_of vote) }
{
    let Ok(kind) = Kind::try_from(vote.kind) else {
        return false;
    };
    if !(1..=limits.periods).contains(&vote.period) || vote.from >= limits.members {
        return false;
    }
    match kind {
        Kind::Soft | Kind::Cert => vote.step == 0,
        Kind::Next => is_later_step(limits, vote.step),
        Kind::NextNone => vote.value.is_zero() && is_later_step(limits, vote.step),
    }
}

impl ValidVote {
    // The vote, if it is in range for these limits.
    pub fn new(limits: Limits, vote: Vote) -> Option<ValidVote>
        ensures is { MatchOption result (vote_in_range (limits_of all limits) (vote_of vote) ≡ false)
            (λ v. (v.limits ≡ limits) × (v.vote ≡ vote)) }
    {
        // Kept so: `then_some` would make it before the test has said that it is in range.
        if vote_in_range(limits, vote) {
            Some(ValidVote { limits, vote })
        } else {
            None
        }
    }
}
