// The best proposal of each period, and which proposals are in range.
// Kept so: a seat's first number says whether a proposal is there: lent memory is laid out so.
ghost use Rattle.std.specs.Prelude.{◌≡◌, ◌+◌, ◌≤◌, true, false, length, MatchOption};
ghost use Rattle.limits.specs.Limits.{limits_of};
ghost use Rattle.protocol.specs.Promises.{all};
ghost use Rattle.protocol.specs.Member.{in_range, got_proposal, keep_best, proposed};
ghost use Rattle.wire.specs.Meaning.{proposal_of};
ghost use Rattle.cells.specs.Cells.{listed, Only};
ghost use Rattle.cells.specs.Proposals.{proposals_size, seat, Proposals, Proposes, valid_proposal, proposal_limits};

use super::cells::put_value;
use super::valid::ValidProposal;
use limits::Limits;
use values::Value;
use wire::Proposal;

impl ValidProposal {
    // The proposal, if it is in range for these limits.
    pub fn new(limits: Limits, proposal: Proposal) -> Option<ValidProposal>
        ensures is { MatchOption result (in_range (limits_of all limits) (got_proposal (proposal_of proposal)) ≡ false)
            (λ o. (o.limits ≡ limits) × ((o.proposal ≡ proposal)
            × (in_range (limits_of all limits) (got_proposal (proposal_of proposal)) ≡ true))) }
    {
        // Kept so: `then_some` would make it before the test has said that it is in range.
        if (1..=limits.periods).contains(&proposal.period) {
            Some(ValidProposal { limits, proposal })
        } else {
            None
        }
    }
}

// The value proposed for a period.
pub fn proposed_for(proposals: &[u64], limits: Limits, period: u64) -> Option<Value>
    requires proposals { length proposals.now ≡ proposals_size (limits_of all limits) }
    requires some { 1 ≤ period }
    requires few { period ≤ limits.periods }
    ensures is { (os : Proposals) → Proposes (limits_of all limits) proposals.now os →
        listed result ≡ proposed period os }
{
    let (seats, _) = proposals.as_chunks::<8>();
    let [here, _, a, b, c, d, _, _] = seats[(period - 1) as usize];
    (here != 0).then_some(Value::from([a, b, c, d]))
}

// Keeps a proposal if there is none for its period, or one of a greater rank.
// Kept so: of what is written through `as_chunks_mut` only the length is known after it; `only` says the places.
pub fn keep(proposals: &mut [u64], proposal: ValidProposal)
    requires proposals { length proposals.old ≡ proposals_size (proposal_limits proposal) }
    ensures is { (os : Proposals) → Proposes (proposal_limits proposal) proposals.old os →
        Proposes (proposal_limits proposal) proposals.new (keep_best (valid_proposal proposal) os) }
    ensures only { Only (seat proposal.proposal.period) (seat proposal.proposal.period + 6)
        proposals.old proposals.new }
{
    let proposal = proposal.proposal;
    let start = 8 * (proposal.period - 1) as usize;
    if proposals[start] == 0 || proposal.rank < proposals[start + 1] {
        proposals[start] = 1;
        proposals[start + 1] = proposal.rank;
        put_value(proposals, start + 2, proposal.value);
    }
}
