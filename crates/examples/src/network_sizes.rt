// The smallest network, of one, and the largest, of 64.
use crate::asked::{agrees, answers, block, hears, proposal, quiet, says, vote};
use member::open;
use std::process::Abort;
use std::test::Fail;
use values::Value;
use wire::{Answer, Event, Kind, Refusal, Said};

// It is a quorum by itself: what it votes for it is certain of, and agrees on, at once.
#[test]
fn one_agrees(rt: HostRuntime) -> Result<(), Fail> {
    let mut memory = [7; 148];
    open(&mut memory, 1, 2, 1, 1, 0).map_err(|_| Fail::new("not opened"))?;
    quiet(&rt, &mut memory, proposal(1, 5))?;
    quiet(&rt, &mut memory, block(5))?;
    let said = Said::Two(vote(Kind::Soft, 1, 0, 5, 0), vote(Kind::Cert, 1, 0, 5, 0));
    answers(
        &rt,
        &mut memory,
        Event::Timeout,
        Answer::Says(said, Some(Value::from([5, 0, 0, 0]))),
    )?;
    answers(
        &rt,
        &mut memory,
        Event::Timeout,
        Answer::Refused(Refusal::AgreedBefore, 0),
    )
}

// The block comes after the vote.
#[test]
fn one_waits(rt: HostRuntime) -> Result<(), Fail> {
    let mut memory = [7; 148];
    open(&mut memory, 1, 2, 1, 1, 0).map_err(|_| Fail::new("not opened"))?;
    quiet(&rt, &mut memory, proposal(1, 5))?;
    says(
        &rt,
        &mut memory,
        Event::Timeout,
        vote(Kind::Soft, 1, 0, 5, 0),
    )?;
    let said = Said::One(vote(Kind::Cert, 1, 0, 5, 0));
    answers(
        &rt,
        &mut memory,
        block(5),
        Answer::Says(said, Some(Value::from([5, 0, 0, 0]))),
    )
}

// With nothing proposed its own vote carries it on, through both periods.
#[test]
fn one_goes_on(rt: HostRuntime) -> Result<(), Fail> {
    let mut memory = [7; 148];
    open(&mut memory, 1, 2, 1, 1, 0).map_err(|_| Fail::new("not opened"))?;
    quiet(&rt, &mut memory, Event::Timeout)?;
    says(
        &rt,
        &mut memory,
        Event::Timeout,
        vote(Kind::NextNone, 1, 2, 0, 0),
    )?;
    quiet(&rt, &mut memory, Event::Timeout)?;
    says(
        &rt,
        &mut memory,
        Event::Timeout,
        vote(Kind::NextNone, 2, 2, 0, 0),
    )?;
    answers(
        &rt,
        &mut memory,
        Event::Timeout,
        Answer::Refused(Refusal::NoMoreTime, 0),
    )
}

// Members 1 to 41 vote for 5.
fn hears_41(rt: &impl Abort, memory: &mut [u64], kind: Kind) -> Result<(), Fail> {
    for from in 1..42 {
        hears(rt, memory, vote(kind, 1, 0, 5, from))?;
    }
    Ok(())
}

// Of 64 members 43 are a quorum, and 42 are none: its own vote, those of 41 others, and one more.
#[test]
fn sixty_four(rt: HostRuntime) -> Result<(), Fail> {
    let mut memory = [7; 2124];
    open(&mut memory, 64, 1, 1, 1, 0).map_err(|_| Fail::new("not opened"))?;
    quiet(&rt, &mut memory, proposal(1, 5))?;
    quiet(&rt, &mut memory, block(5))?;
    says(
        &rt,
        &mut memory,
        Event::Timeout,
        vote(Kind::Soft, 1, 0, 5, 0),
    )?;
    hears_41(&rt, &mut memory, Kind::Soft)?;
    says(
        &rt,
        &mut memory,
        Event::Vote(vote(Kind::Soft, 1, 0, 5, 42)),
        vote(Kind::Cert, 1, 0, 5, 0),
    )?;
    hears_41(&rt, &mut memory, Kind::Cert)?;
    agrees(
        &rt,
        &mut memory,
        Event::Vote(vote(Kind::Cert, 1, 0, 5, 42)),
        5,
    )
}
