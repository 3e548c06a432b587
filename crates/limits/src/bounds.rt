// The limits with which a network is opened, within their ranges by type.
ghost use Rattle.std.specs.Prelude.{◌≤◌};

#[derive(Clone, Copy, PartialEq, Eq, Debug)]
pub struct Limits {
    pub members: u64,
    pub periods: u64,
    // how many times a member may vote to go on in one period
    pub steps: u64,
    pub blocks: u64,
    ghost some_member: { 1 ≤ members },
    ghost few_members: { members ≤ 64 },
    ghost some_period: { 1 ≤ periods },
    ghost few_periods: { periods ≤ 32 },
    ghost some_step: { 1 ≤ steps },
    ghost few_steps: { steps ≤ 8 },
    ghost some_block: { 1 ≤ blocks },
    ghost few_blocks: { blocks ≤ 256 },
}

// Which of the limits.
#[derive(Clone, Copy, PartialEq, Eq, Debug)]
pub enum Limit {
    Members,
    Periods,
    Steps,
    Blocks,
}
