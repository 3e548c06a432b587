// The memory of one member, within that of all.
ghost use Rattle.std.specs.Prelude.{◌≡◌, ◌+◌, ◌<◌, ◌≤◌, length};
ghost use Rattle.std.specs.List.{between};
ghost use Rattle.limits.specs.Limits.{limits_of};
ghost use Rattle.protocol.specs.Programs.{memory_size};
ghost use Rattle.protocol.specs.Promises.{all};
ghost use Rattle.member.specs.Calls.{ByCall, Opened};
ghost use Rattle.wire.specs.Meaning.{event_of};
ghost use Rattle.network.specs.Parts.{OnlyPart};

use limits::Limits;
use member::NotOpen;
use std::ops::Range;
use wire::{Answer, Event};

// Hands an event to the member in this part.
pub(crate) fn take_in(
    memory: &mut [u64],
    span: Range<usize>,
    event: Event,
) -> Result<Answer, NotOpen>
    requires order { span.start ≤ span.end }
    requires within { span.end ≤ length memory.old }
    ensures is { ByCall (between span.start span.end memory.old) (event_of event)
        (between span.start span.end memory.new) result }
    ensures only { OnlyPart span.start span.end memory.old memory.new }
{
    member::take(&mut memory[span], event)
}

// Opens a member in this part, which is as long as its limits ask for.
pub(crate) fn open_in(memory: &mut [u64], span: Range<usize>, limits: Limits, me: u64)
    requires size { span.end ≡ span.start + memory_size (limits_of all limits) }
    requires within { span.end ≤ length memory.old }
    requires me { me < limits.members }
    ensures is { Opened (limits_of all limits) me (between span.start span.end memory.new) }
    ensures only { OnlyPart span.start span.end memory.old memory.new }
{
    member::open(
        &mut memory[span],
        limits.members,
        limits.periods,
        limits.steps,
        limits.blocks,
        me,
    )
    .unwrap();
}
