// Opening a member in lent memory, and calling it.
// Kept so: limits and a member are by value beside lent memory, by a rule of the project: hence `long`.
ghost use Rattle.std.specs.Prelude.{◌≡◌, ◌<◌, ◌≤◌, length, IfOk};
ghost use Rattle.protocol.specs.Member.{new_member};
ghost use Rattle.protocol.specs.Programs.{memory_size};
ghost use Rattle.protocol.specs.Promises.{all};
ghost use Rattle.limits.specs.Limits.{limits_of};
ghost use Rattle.wire.specs.Bytes.{event_in};
ghost use Rattle.wire.specs.Meaning.{event_of};
ghost use Rattle.member.specs.Answered.{Carries};
ghost use Rattle.member.specs.Calls.{IsOpen, ByOpen, ByCall};
ghost use Rattle.moves.specs.Parts.{part, of_rest, Blank};

use super::answers::answer_to;
use super::calls::{NotOpen, OpenError};
use super::header::mark;
use super::looks::opened;
use cells::clear;
use limits::Limits;
use moves::Member;
use wire::{Answer, Event, Refusal, read_event};

// Writes zeros where a member with these limits is to be.
fn blank(memory: &mut [u64], limits: Limits)
    requires long { memory_size (limits_of all limits) ≤ length memory.old }
    ensures is { Blank (limits_of all limits) memory.old memory.new }
{
    let size = limits.memory() as usize;
    clear(&mut memory[..size]);
}

// Writes a new member.
fn write_new(memory: &mut [u64], limits: Limits, me: u64)
    requires long { memory_size (limits_of all limits) ≤ length memory.old }
    requires me { me < limits.members }
    ensures is { Carries (limits_of all limits) me memory.new (new_member me) }
    ensures rest { part of_rest (limits_of all limits) memory.new
        ≡ part of_rest (limits_of all limits) memory.old }
{
    blank(memory, limits);
    let member = Member {
        limits,
        me,
        period: 1,
        step: 0,
        start: None,
        free: true,
        certain: false,
        blocks: 0,
        agreed: None,
    };
    mark(memory, member);
}

// Opens member `me` in the memory lent, whatever was there before; or says why not, and changes nothing.
// Kept so: `Limits` in place of the four numbers would ask of callers that these are in range.
pub fn open(
    memory: &mut [u64],
    members: u64,
    periods: u64,
    steps: u64,
    blocks: u64,
    me: u64,
) -> Result<(), OpenError>
    ensures is { ByOpen members periods steps blocks me memory.old memory.new result }
{
    let limits = Limits::new(members, periods, steps, blocks).map_err(OpenError::OutOfRange)?;
    if me >= limits.members {
        return Err(OpenError::NotMember);
    }
    let size = limits.memory();
    if (memory.len() as u64) < size {
        return Err(OpenError::TooShort(size));
    }
    write_new(memory, limits, me);
    Ok(())
}

// The answer of the member in this memory to an event.
pub fn take(memory: &mut [u64], event: Event) -> Result<Answer, NotOpen>
    ensures is { ByCall memory.old (event_of event) memory.new result }
    ensures held { IfOk result (λ _. IsOpen memory.old) }
{
    let member = opened(memory)?;
    Ok(answer_to(member, memory, event))
}

// The answer of the member in this memory to the event that the bytes are.
pub fn call(memory: &mut [u64], bytes: &[u8]) -> Result<Answer, NotOpen>
    ensures is { ByCall memory.old (event_in bytes.now) memory.new result }
    ensures held { IfOk result (λ _. IsOpen memory.old) }
{
    let member = opened(memory)?;
    match read_event(bytes) {
        Ok(event) => Ok(answer_to(member, memory, event)),
        Err(place) => Ok(Answer::Refused(Refusal::NoEvent, place as u64)),
    }
}
