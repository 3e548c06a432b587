// Each refusal of a member by each of its reasons, with its place: memory stays as it was.
use crate::asked::{agrees, answers, block, hears, proposal, quiet, says, vote};
use member::{call, open};
use std::process::Abort;
use std::test::Fail;
use wire::{Answer, Event, Kind, Refusal, Vote};

// Member 0 of 4, with 2 periods, 2 times to go on and 2 blocks, which is 472 numbers.
pub(crate) fn opened() -> Result<[u64; 472], Fail> {
    let mut memory = [7; 472];
    open(&mut memory, 4, 2, 2, 2, 0).map_err(|_| Fail::new("not opened"))?;
    Ok(memory)
}

// The event is refused at place 0, and nothing changes.
fn refuses(
    rt: &impl Abort,
    memory: &mut [u64; 472],
    event: Event,
    refusal: Refusal,
) -> Result<(), Fail> {
    let before = *memory;
    answers(rt, memory, event, Answer::Refused(refusal, 0))?;
    assert!(rt; *memory == before, "nothing changes");
    Ok(())
}

// The bytes are no event from this place on, and nothing changes.
fn no_event(rt: &impl Abort, bytes: &[u8], place: u64) -> Result<(), Fail> {
    let mut memory = opened()?;
    let before = memory;
    let refused = Answer::Refused(Refusal::NoEvent, place);
    assert_eq!(rt; call(&mut memory, bytes), Ok(refused));
    assert!(rt; memory == before, "nothing changes");
    Ok(())
}

#[test]
fn no_events(rt: HostRuntime) -> Result<(), Fail> {
    no_event(&rt, b"", 0)?;
    // unknown first byte
    no_event(&rt, &[4], 0)?;
    // too short
    no_event(&rt, &[0; 64], 64)?;
    // too long
    no_event(&rt, &[0; 66], 65)
}

// A vote that is out of range.
fn no_vote(rt: &impl Abort, vote: Vote) -> Result<(), Fail> {
    let mut memory = opened()?;
    refuses(rt, &mut memory, Event::Vote(vote), Refusal::OutOfRange)
}

#[test]
fn out_of_range(rt: HostRuntime) -> Result<(), Fail> {
    let soft = vote(Kind::Soft, 1, 0, 5, 1);
    // no kind
    no_vote(&rt, Vote { kind: 4, ..soft })?;
    // no period 0
    no_vote(&rt, Vote { period: 0, ..soft })?;
    // a period above the limit
    no_vote(&rt, Vote { period: 3, ..soft })?;
    // a soft vote of step 1
    no_vote(&rt, Vote { step: 1, ..soft })?;
    // no member
    no_vote(&rt, Vote { from: 4, ..soft })?;
    // a cert vote of step 1
    no_vote(&rt, vote(Kind::Cert, 1, 1, 5, 1))?;
    // a next vote of step 0
    no_vote(&rt, vote(Kind::Next, 1, 0, 5, 1))?;
    // a next vote of step 1
    no_vote(&rt, vote(Kind::Next, 1, 1, 5, 1))?;
    // a step above the limit
    no_vote(&rt, vote(Kind::Next, 1, 4, 5, 1))?;
    // a step above the limit, with none
    no_vote(&rt, vote(Kind::NextNone, 1, 4, 0, 1))?;
    // a next-none vote with a value
    no_vote(&rt, vote(Kind::NextNone, 1, 2, 5, 1))
}

#[test]
fn proposals_out_of_range(rt: HostRuntime) -> Result<(), Fail> {
    let mut memory = opened()?;
    refuses(&rt, &mut memory, proposal(0, 5), Refusal::OutOfRange)?;
    refuses(&rt, &mut memory, proposal(3, 5), Refusal::OutOfRange)?;
    // the last period
    quiet(&rt, &mut memory, proposal(2, 5))
}

// The edges that are in range, each of another member.
#[test]
fn in_range(rt: HostRuntime) -> Result<(), Fail> {
    let mut memory = opened()?;
    hears(&rt, &mut memory, vote(Kind::Soft, 2, 0, 5, 3))?;
    hears(&rt, &mut memory, vote(Kind::Next, 2, 3, 5, 2))?;
    hears(&rt, &mut memory, vote(Kind::NextNone, 1, 2, 0, 1))
}

#[test]
fn agreed_before(rt: HostRuntime) -> Result<(), Fail> {
    let mut memory = opened()?;
    quiet(&rt, &mut memory, block(5))?;
    hears(&rt, &mut memory, vote(Kind::Cert, 1, 0, 5, 1))?;
    hears(&rt, &mut memory, vote(Kind::Cert, 1, 0, 5, 2))?;
    agrees(
        &rt,
        &mut memory,
        Event::Vote(vote(Kind::Cert, 1, 0, 5, 3)),
        5,
    )?;
    refuses(&rt, &mut memory, Event::Timeout, Refusal::AgreedBefore)?;
    refuses(&rt, &mut memory, block(6), Refusal::AgreedBefore)?;
    refuses(&rt, &mut memory, proposal(1, 5), Refusal::AgreedBefore)?;
    // 2 comes before 3
    refuses(&rt, &mut memory, proposal(0, 5), Refusal::OutOfRange)?;
    refuses(
        &rt,
        &mut memory,
        Event::Vote(vote(Kind::Soft, 1, 0, 5, 1)),
        Refusal::AgreedBefore,
    )?;
    // 3 comes before 4
    refuses(
        &rt,
        &mut memory,
        Event::Vote(vote(Kind::Soft, 1, 0, 5, 0)),
        Refusal::AgreedBefore,
    )
}

#[test]
fn voted_before(rt: HostRuntime) -> Result<(), Fail> {
    let mut memory = opened()?;
    hears(&rt, &mut memory, vote(Kind::Soft, 1, 0, 5, 1))?;
    // again
    refuses(
        &rt,
        &mut memory,
        Event::Vote(vote(Kind::Soft, 1, 0, 5, 1)),
        Refusal::VotedBefore,
    )?;
    // another value
    refuses(
        &rt,
        &mut memory,
        Event::Vote(vote(Kind::Soft, 1, 0, 6, 1)),
        Refusal::VotedBefore,
    )?;
    // its own name
    refuses(
        &rt,
        &mut memory,
        Event::Vote(vote(Kind::Soft, 1, 0, 5, 0)),
        Refusal::VotedBefore,
    )?;
    // another slot
    hears(&rt, &mut memory, vote(Kind::Cert, 1, 0, 6, 1))
}

#[test]
fn no_more_steps(rt: HostRuntime) -> Result<(), Fail> {
    let mut memory = opened()?;
    quiet(&rt, &mut memory, Event::Timeout)?;
    says(
        &rt,
        &mut memory,
        Event::Timeout,
        vote(Kind::NextNone, 1, 2, 0, 0),
    )?;
    says(
        &rt,
        &mut memory,
        Event::Timeout,
        vote(Kind::NextNone, 1, 3, 0, 0),
    )?;
    refuses(&rt, &mut memory, Event::Timeout, Refusal::NoMoreTime)
}

// A quorum carries the member one period beyond the last.
#[test]
fn no_more_periods(rt: HostRuntime) -> Result<(), Fail> {
    let mut memory = opened()?;
    hears(&rt, &mut memory, vote(Kind::Next, 2, 2, 5, 1))?;
    hears(&rt, &mut memory, vote(Kind::Next, 2, 2, 5, 2))?;
    hears(&rt, &mut memory, vote(Kind::Next, 2, 2, 5, 3))?;
    refuses(&rt, &mut memory, Event::Timeout, Refusal::NoMoreTime)
}

#[test]
fn no_more_blocks(rt: HostRuntime) -> Result<(), Fail> {
    let mut memory = opened()?;
    quiet(&rt, &mut memory, block(5))?;
    quiet(&rt, &mut memory, block(6))?;
    refuses(&rt, &mut memory, block(7), Refusal::NoMoreBlocks)?;
    // it is here already
    quiet(&rt, &mut memory, block(5))?;
    // it is here already
    quiet(&rt, &mut memory, block(6))
}
