// Making limits, and what follows from them: the quorum, and the memory that a member asks for.
ghost use Rattle.std.specs.Prelude.{◌≡◌, ◌*◌};
ghost use Rattle.protocol.specs.Promises.{all};
ghost use Rattle.protocol.specs.Vote.{quorum};
ghost use Rattle.protocol.specs.Programs.{memory_size};
ghost use Rattle.limits.specs.Limits.{limits_of, Made};

use super::bounds::{Limit, Limits};

impl Limits {
    // The limits, or the first of them that is out of range.
    pub fn new(members: u64, periods: u64, steps: u64, blocks: u64) -> Result<Limits, Limit>
        ensures is { Made members periods steps blocks result }
    {
        Limit::Members.check(members)?;
        Limit::Periods.check(periods)?;
        Limit::Steps.check(steps)?;
        Limit::Blocks.check(blocks)?;
        Ok(Limits {
            members,
            periods,
            steps,
            blocks,
        })
    }

    // How many members are a quorum.
    pub fn quorum(self) -> u64
        ensures is { result ≡ quorum self.members }
    {
        self.members - (self.members - 1) / 3
    }

    // How many numbers of eight bytes a member asks for.
    pub fn memory(self) -> u64
        ensures is { result ≡ memory_size (limits_of all self) }
    {
        8 * (self.members * (self.periods * (2 * self.steps + 2)))
            + (8 * self.periods + (4 * self.blocks + 64))
    }

    // The same in bytes.
    pub fn memory_bytes(self) -> u64
        ensures is { result ≡ 8 * memory_size (limits_of all self) }
    {
        8 * self.memory()
    }
}
