// How many numbers each part takes. In a member's memory the parts follow its header, one after the other.
ghost use Rattle.std.specs.Prelude.{◌≡◌};
ghost use Rattle.limits.specs.Limits.{limits_of};
ghost use Rattle.protocol.specs.Promises.{all};
ghost use Rattle.cells.specs.Blocks.{blocks_size};
ghost use Rattle.cells.specs.Proposals.{proposals_size};
ghost use Rattle.tally.specs.Layout.{votes_size};

use limits::Limits;

pub fn votes_size(limits: Limits) -> u64
    ensures is { result ≡ votes_size (limits_of all limits) }
{
    8 * (limits.members * (limits.periods * (2 * limits.steps + 2)))
}

pub fn proposals_size(limits: Limits) -> u64
    ensures is { result ≡ proposals_size (limits_of all limits) }
{
    8 * limits.periods
}

pub fn blocks_size(limits: Limits) -> u64
    ensures is { result ≡ blocks_size (limits_of all limits) }
{
    4 * limits.blocks
}
