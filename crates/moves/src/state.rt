// A member by value: its limits, its number, and all of its state but what it heard.
ghost use Rattle.std.specs.Prelude.{◌+◌, ◌-◌, ◌<◌, ◌≤◌};

use limits::Limits;
use values::Value;

// Kept so: a header may hold any `start` with any `free`, and `look` promises both; `certain` goes with no value.
#[derive(Clone, Copy)]
pub struct Member {
    pub limits: Limits,
    pub me: u64,
    pub period: u64,
    pub step: u64,
    // the value that it began this period with
    pub start: Option<Value>,
    pub free: bool,
    // it said in this period that it is certain
    pub certain: bool,
    // how many blocks are here
    pub blocks: u64,
    pub agreed: Option<Value>,
    ghost member: { me < limits.members },
    ghost some_period: { 1 ≤ period },
    // only at step 0 it may be one period past the last
    ghost few_periods: { period ≤ limits.periods + (1 - step) },
    ghost few_steps: { step ≤ limits.steps + 1 },
    ghost few_blocks: { blocks ≤ limits.blocks },
}

// A member that has steps and periods left: time may be up for it.
#[derive(Clone, Copy)]
pub struct WithTime {
    pub member: Member,
    ghost few_steps: { member.step ≤ member.limits.steps },
    ghost few_periods: { member.period ≤ member.limits.periods },
}
