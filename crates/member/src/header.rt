// A member's header in memory: taken from it by value, and written back.
// Kept so: a member is by value beside lent memory, by a rule of the project: hence `within` and `long`.
ghost use Rattle.std.specs.Prelude.{◌≡◌, ◌+◌, ◌≤◌, length, MatchOption, slice_index};
ghost use Rattle.protocol.specs.Programs.{memory_size};
ghost use Rattle.protocol.specs.Promises.{all};
ghost use Rattle.limits.specs.Limits.{limits_of};
ghost use Rattle.cells.specs.Cells.{listed, Only};
ghost use Rattle.member.specs.Header.{option_at, Asks, Place, Header};

use cells::{put_value, value_at};
use limits::Limits;
use moves::Member;
use values::Value;

const MARK: u64 = 0x6d75_6c65_6667_654b;

// Where the header's numbers lie: behind the mark the limits and the own number, then where the member stands, and two
// values that may be missing.
const MEMBERS: usize = 1;

const PERIODS: usize = 2;

const STEPS: usize = 3;

const BLOCKS: usize = 4;

const ME: usize = 5;

const PERIOD: usize = 6;

const STEP: usize = 7;

const FREE: usize = 8;

const CERTAIN: usize = 9;

const BLOCKS_HERE: usize = 10;

const START: usize = 11;

const AGREED: usize = 16;

// Kept so: `free`, `certain` and what stands before a value are flags: lent memory is laid out so.
fn option_at(memory: &[u64], at: usize) -> Option<Value>
    requires within { at + 5 ≤ length memory.now }
    ensures is { listed result ≡ option_at memory.now at }
{
    (memory[at] != 0).then_some(value_at(memory, at + 1))
}

fn put_option(memory: &mut [u64], at: usize, option: Option<Value>)
    requires within { at + 5 ≤ length memory.old }
    ensures is { option_at memory.new at ≡ listed option }
    ensures only { Only at (at + 5) memory.old memory.new }
{
    match option {
        None => memory[at] = 0,
        Some(value) => {
            memory[at] = 1;
            put_value(memory, at + 1, value);
        }
    }
}

// The limits in the header, if it is marked and long enough for them.
fn limits_in(memory: &[u64]) -> Option<Limits>
    ensures is { MatchOption result ((l : Limits) → Asks memory.now l → ⊥)
        (λ l. Asks memory.now l) }
{
    if memory.len() < 64 || memory[0] != MARK {
        return None;
    }
    let limits = Limits::new(
        memory[MEMBERS],
        memory[PERIODS],
        memory[STEPS],
        memory[BLOCKS],
    )
    .ok()?;
    if memory.len() < limits.memory() as usize {
        return None;
    }
    Some(limits)
}

// The member whose header this is, if it is one.
pub(crate) fn load(memory: &[u64]) -> Option<Member>
    ensures is { MatchOption result ((x : Member) → Header memory.now x → ⊥)
        (λ x. Header memory.now x) }
{
    let limits = limits_in(memory)?;
    let me = memory[ME];
    let period = memory[PERIOD];
    let step = memory[STEP];
    let blocks = memory[BLOCKS_HERE];
    if me >= limits.members || step > limits.steps + 1 || blocks > limits.blocks {
        return None;
    }
    if period < 1 || period > limits.periods + 1_u64.saturating_sub(step) {
        return None;
    }
    Some(Member {
        limits,
        me,
        period,
        step,
        start: option_at(memory, START),
        free: memory[FREE] != 0,
        certain: memory[CERTAIN] != 0,
        blocks,
        agreed: option_at(memory, AGREED),
    })
}

fn put_place(memory: &mut [u64], member: Member)
    requires long { 64 ≤ length memory.old }
    ensures is { Place memory.new member }
    ensures only { Only 6 11 memory.old memory.new }
{
    memory[PERIOD] = member.period;
    memory[STEP] = member.step;
    memory[FREE] = u64::from(member.free);
    memory[CERTAIN] = u64::from(member.certain);
    memory[BLOCKS_HERE] = member.blocks;
}

// Writes where a member stands, behind the mark, its limits and its number.
pub(crate) fn store(memory: &mut [u64], member: Member)
    requires long { 64 ≤ length memory.old }
    ensures is { Asks memory.old member.limits →
        slice_index memory.old 5 ≡ member.me → Header memory.new member }
    ensures only { Only 0 64 memory.old memory.new }
{
    put_place(memory, member);
    put_option(memory, START, member.start);
    put_option(memory, AGREED, member.agreed);
}

// Writes the mark, the limits and its number.
fn put_limits(memory: &mut [u64], member: Member)
    requires long { memory_size (limits_of all member.limits) ≤ length memory.old }
    ensures is { Asks memory.new member.limits }
    ensures me { slice_index memory.new 5 ≡ member.me }
    ensures only { Only 0 6 memory.old memory.new }
{
    memory[0] = MARK;
    memory[MEMBERS] = member.limits.members;
    memory[PERIODS] = member.limits.periods;
    memory[STEPS] = member.limits.steps;
    memory[BLOCKS] = member.limits.blocks;
    memory[ME] = member.me;
}

// Writes the header of a member that is opened.
pub(crate) fn mark(memory: &mut [u64], member: Member)
    requires long { memory_size (limits_of all member.limits) ≤ length memory.old }
    ensures is { Header memory.new member }
    ensures only { Only 0 64 memory.old memory.new }
{
    put_limits(memory, member);
    store(memory, member);
}
