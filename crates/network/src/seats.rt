// Where the memory of each honest member lies.
ghost use Rattle.std.specs.Prelude.{◌≡◌, ◌+◌, ◌<◌, ◌≤◌, false, vec_len};
ghost use Rattle.limits.specs.Limits.{limits_of};
ghost use Rattle.protocol.specs.Programs.{memory_size};
ghost use Rattle.protocol.specs.Promises.{all};
ghost use Rattle.network.specs.Members.{has};
ghost use Rattle.network.specs.Seats.{start_of, memory_of};

use super::state::Network;
use std::ops::Range;

impl Network {
    // Where the memory of an honest member begins, and where it ends.
    pub(crate) fn span(&self, member: u64) -> Range<usize>
        requires member { member < self.now.limits.members }
        requires honest { has self.now.faulty.bits member ≡ false }
        ensures start { result.start ≡ start_of (limits_of all self.now.limits)
            (has self.now.faulty.bits) member }
        ensures size { result.end ≡ result.start + memory_size (limits_of all self.now.limits) }
        ensures within { result.end ≤ vec_len self.now.memory }
    {
        let size = self.limits.memory() as usize;
        let start = self.faulty.others_below(member) as usize * size;
        start..start + size
    }

    // The memory of an honest member.
    pub(crate) fn part(&self, member: u64) -> &[u64]
        requires member { member < self.now.limits.members }
        requires honest { has self.now.faulty.bits member ≡ false }
        ensures is { result.now ≡ memory_of (limits_of all self.now.limits) (has self.now.faulty.bits) member
            self.now.memory.items }
    {
        let span = self.span(member);
        &self.memory.as_slice()[span]
    }
}
