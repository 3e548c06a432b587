// What a member answers to an event that can be read: refused by the first check that fails, or done and said.
// Kept so: a member is by value beside lent memory, by a rule of the project: hence `long`.
// Kept so: the refusal of each check is returned by `let .. else`, in the list's order, by a rule of the project.
ghost use Rattle.std.specs.Prelude.{◌≡◌, ◌≤◌, true, length};
ghost use Rattle.protocol.specs.Member.{vote_in_range, in_range, says, got_vote, got_proposal, got_block, timeout};
ghost use Rattle.protocol.specs.Programs.{memory_size};
ghost use Rattle.values.specs.Values.{value_of};
ghost use Rattle.wire.specs.Meaning.{vote_of, proposal_of, event_of, said_of, answer_of};
ghost use Rattle.cells.specs.Cells.{listed};
ghost use Rattle.member.specs.Header.{Header};
ghost use Rattle.moves.specs.Parts.{OnlyIn, of_header};
ghost use Rattle.moves.specs.Stands.{lim, Stands};
ghost use Rattle.moves.specs.Moves.{OfMember, Same};
ghost use Rattle.moves.specs.Events.{Ready, Lone};
ghost use Rattle.member.specs.Answered.{Carries, Answered};

use super::checks::{in_range, undecided, unheard, with_time};
use super::header::store;
use moves::Member;
use values::Value;
use wire::{Answer, Event, Proposal, Refusal, Said, Vote};

// Writes its header, and answers with what it says.
fn says(member: Member, memory: &mut [u64], said: Said) -> Answer
    requires long { memory_size (lim member) ≤ length memory.old }
    ensures is { answer_of result ≡ says (said_of said) (listed member.agreed) }
    ensures carries { (x : Member) (m : OfMember) → Header memory.old x → Same x member →
        Stands member memory.old m → Carries (lim member) member.me memory.new m }
    ensures only { OnlyIn of_header (lim member) memory.old memory.new }
{
    store(memory, member);
    Answer::Says(said, member.agreed)
}

fn answer_vote(member: Member, memory: &mut [u64], vote: Vote) -> Answer
    requires long { memory_size (lim member) ≤ length memory.old }
    requires vote { vote_in_range (lim member) (vote_of vote) ≡ true }
    ensures is { (m : OfMember) → Header memory.old member →
        Stands member memory.old m → Ready (lim member) m →
        Answered member memory.old memory.new m (got_vote (vote_of vote)) result }
{
    let Some(vote) = unheard(member, memory, vote) else {
        return Answer::Refused(Refusal::VotedBefore, 0);
    };
    let (after, said) = member.on_vote(memory, vote);
    says(after, memory, said)
}

fn answer_proposal(member: Member, memory: &mut [u64], proposal: Proposal) -> Answer
    requires long { memory_size (lim member) ≤ length memory.old }
    requires proposal { in_range (lim member) (got_proposal (proposal_of proposal)) ≡ true }
    ensures is { (m : OfMember) → Header memory.old member →
        Stands member memory.old m → Ready (lim member) m →
        Answered member memory.old memory.new m (got_proposal (proposal_of proposal)) result }
{
    let (after, said) = member.on_proposal(memory, proposal);
    says(after, memory, said)
}

fn answer_block(member: Member, memory: &mut [u64], value: Value) -> Answer
    requires long { memory_size (lim member) ≤ length memory.old }
    ensures is { (m : OfMember) → Header memory.old member →
        Stands member memory.old m → Ready (lim member) m →
        Answered member memory.old memory.new m (got_block (value_of value)) result }
{
    let Some((after, said)) = member.on_block(memory, value) else {
        return Answer::Refused(Refusal::NoMoreBlocks, 0);
    };
    says(after, memory, said)
}

fn answer_timeout(member: Member, memory: &mut [u64]) -> Answer
    requires long { memory_size (lim member) ≤ length memory.old }
    ensures is { (m : OfMember) → Header memory.old member →
        Stands member memory.old m → Ready (lim member) m →
        Answered member memory.old memory.new m timeout result }
{
    let Some(member) = with_time(member) else {
        return Answer::Refused(Refusal::NoMoreTime, 0);
    };
    let (after, said) = member.on_timeout(memory);
    says(after, memory, said)
}

// The answer to an event, by the first check of the list that fails, or by what it does.
pub(crate) fn answer_to(member: Member, memory: &mut [u64], event: Event) -> Answer
    requires long { memory_size (lim member) ≤ length memory.old }
    ensures is { (m : OfMember) → Header memory.old member →
        Stands member memory.old m → Lone (lim member) m →
        Answered member memory.old memory.new m (event_of event) result }
{
    let Some(good) = in_range(member, event) else {
        return Answer::Refused(Refusal::OutOfRange, 0);
    };
    let Some(open) = undecided(member, good) else {
        return Answer::Refused(Refusal::AgreedBefore, 0);
    };
    match open {
        Event::Vote(vote) => answer_vote(member, memory, vote),
        Event::Proposal(proposal) => answer_proposal(member, memory, proposal),
        Event::Block(value) => answer_block(member, memory, value),
        Event::Timeout => answer_timeout(member, memory),
    }
}
