// A vote that is in range for the limits it came with, by type: so nobody has to look again.
ghost use Rattle.std.specs.Prelude.{◌≡◌, true};
ghost use Rattle.limits.specs.Limits.{limits_of};
ghost use Rattle.protocol.specs.Member.{vote_in_range};
ghost use Rattle.protocol.specs.Promises.{all};
ghost use Rattle.wire.specs.Meaning.{vote_of};

use limits::Limits;
use wire::Vote;

// Kept so: which range holds differs by type, and so do the methods: one generic type would share two fields only.
#[derive(Clone, Copy)]
pub struct ValidVote {
    pub limits: Limits,
    pub vote: Vote,
    ghost in_range: { vote_in_range (limits_of all limits) (vote_of vote) ≡ true },
}
