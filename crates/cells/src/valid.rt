// A proposal that is in range for the limits it came with, by type.
ghost use Rattle.std.specs.Prelude.{◌≤◌};

use limits::Limits;
use wire::Proposal;

// Only its period can be out of range.
// Kept so: which range holds differs by type, and so do the methods: one generic type would share two fields only.
#[derive(Clone, Copy)]
pub struct ValidProposal {
    pub limits: Limits,
    pub proposal: Proposal,
    ghost some_period: { 1 ≤ proposal.period },
    ghost few_periods: { proposal.period ≤ limits.periods },
}
