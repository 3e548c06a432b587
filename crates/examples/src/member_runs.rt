// The worked example of four members, of whom number 3 is faulty, and a run in which all honest ones agree: every row.
use crate::asked::{agrees, answers, block, hears, proposal, quiet, says, stands, vote};
use member::open;
use std::process::Abort;
use std::test::Fail;
use wire::{Answer, Event, Kind, Refusal};

// Member `me` of four is opened, and value 5 is proposed to it.
fn proposed(rt: &impl Abort, memory: &mut [u64], me: u64) -> Result<(), Fail> {
    open(memory, 4, 4, 4, 4, me).map_err(|_| Fail::new("not opened"))?;
    quiet(rt, memory, proposal(1, 5))
}

// The memory of the three honest members.
#[derive(Clone, Copy)]
struct Honest {
    zero: [u64; 1392],
    one: [u64; 1392],
    two: [u64; 1392],
}

// All three are opened, and value 5 is proposed to them.
fn opened(rt: &impl Abort) -> Result<Honest, Fail> {
    let mut members = Honest {
        zero: [7; 1392],
        one: [7; 1392],
        two: [7; 1392],
    };
    proposed(rt, &mut members.zero, 0)?;
    proposed(rt, &mut members.one, 1)?;
    proposed(rt, &mut members.two, 2)?;
    Ok(members)
}

// Time is up for the first time, and each says its soft vote.
fn vote_first(rt: &impl Abort, honest: &mut Honest) -> Result<(), Fail> {
    let Honest { zero, one, two } = honest;
    says(rt, zero, Event::Timeout, vote(Kind::Soft, 1, 0, 5, 0))?;
    says(rt, one, Event::Timeout, vote(Kind::Soft, 1, 0, 5, 1))?;
    says(rt, two, Event::Timeout, vote(Kind::Soft, 1, 0, 5, 2))?;
    stands(rt, zero, 1, 1, None)?;
    stands(rt, one, 1, 1, None)?;
    stands(rt, two, 1, 1, None)
}

// Member 0 is certain, the others are not.
fn one_certain(rt: &impl Abort, honest: &mut Honest) -> Result<(), Fail> {
    let Honest { zero, one, two } = honest;
    hears(rt, zero, vote(Kind::Soft, 1, 0, 5, 1))?;
    let again = Event::Vote(vote(Kind::Soft, 1, 0, 5, 1));
    answers(rt, zero, again, Answer::Refused(Refusal::VotedBefore, 0))?;
    says(
        rt,
        zero,
        Event::Vote(vote(Kind::Soft, 1, 0, 5, 2)),
        vote(Kind::Cert, 1, 0, 5, 0),
    )?;
    hears(rt, one, vote(Kind::Soft, 1, 0, 5, 0))?;
    hears(rt, one, vote(Kind::Soft, 1, 0, 6, 3))?;
    says(rt, one, Event::Timeout, vote(Kind::NextNone, 1, 2, 0, 1))?;
    says(rt, two, Event::Timeout, vote(Kind::NextNone, 1, 2, 0, 2))?;
    says(rt, zero, Event::Timeout, vote(Kind::Next, 1, 2, 5, 0))?;
    // too late to be certain
    hears(rt, one, vote(Kind::Soft, 1, 0, 5, 2))?;
    stands(rt, zero, 1, 2, None)?;
    stands(rt, one, 1, 2, None)
}

// Member 2 goes on with none, member 1 with value 5.
fn two_go_on(rt: &impl Abort, honest: &mut Honest) -> Result<(), Fail> {
    let Honest { zero, one, two } = honest;
    hears(rt, two, vote(Kind::NextNone, 1, 2, 0, 1))?;
    stands(rt, two, 1, 2, None)?;
    hears(rt, two, vote(Kind::NextNone, 1, 2, 0, 3))?;
    stands(rt, two, 2, 0, None)?;
    // nothing is proposed in period 2
    quiet(rt, two, Event::Timeout)?;
    stands(rt, two, 2, 1, None)?;
    says(rt, one, Event::Timeout, vote(Kind::Next, 1, 3, 5, 1))?;
    says(rt, zero, Event::Timeout, vote(Kind::Next, 1, 3, 5, 0))?;
    hears(rt, one, vote(Kind::Next, 1, 3, 5, 0))?;
    stands(rt, one, 1, 3, None)?;
    hears(rt, one, vote(Kind::Next, 1, 3, 5, 3))?;
    stands(rt, one, 2, 0, Some(5))?;
    says(rt, one, Event::Timeout, vote(Kind::Soft, 2, 0, 5, 1))?;
    stands(rt, one, 2, 1, Some(5))?;
    // two of three
    hears(rt, zero, vote(Kind::Cert, 1, 0, 5, 3))?;
    stands(rt, zero, 1, 3, None)
}

#[test]
fn two_ways(rt: HostRuntime) -> Result<(), Fail> {
    let mut honest = opened(&rt)?;
    quiet(&rt, &mut honest.zero, block(5))?;
    quiet(&rt, &mut honest.one, block(5))?;
    vote_first(&rt, &mut honest)?;
    one_certain(&rt, &mut honest)?;
    two_go_on(&rt, &mut honest)
}

// Each is certain, though member 3 votes first for 5 to one and for 6 to another.
fn all_certain(rt: &impl Abort, honest: &mut Honest) -> Result<(), Fail> {
    let Honest { zero, one, two } = honest;
    hears(rt, zero, vote(Kind::Soft, 1, 0, 5, 3))?;
    says(
        rt,
        zero,
        Event::Vote(vote(Kind::Soft, 1, 0, 5, 1)),
        vote(Kind::Cert, 1, 0, 5, 0),
    )?;
    hears(rt, one, vote(Kind::Soft, 1, 0, 6, 3))?;
    hears(rt, one, vote(Kind::Soft, 1, 0, 5, 0))?;
    says(
        rt,
        one,
        Event::Vote(vote(Kind::Soft, 1, 0, 5, 2)),
        vote(Kind::Cert, 1, 0, 5, 1),
    )?;
    hears(rt, two, vote(Kind::Soft, 1, 0, 5, 0))?;
    says(
        rt,
        two,
        Event::Vote(vote(Kind::Soft, 1, 0, 5, 1)),
        vote(Kind::Cert, 1, 0, 5, 2),
    )
}

fn each_agrees(rt: &impl Abort, honest: &mut Honest) -> Result<(), Fail> {
    let Honest { zero, one, two } = honest;
    hears(rt, zero, vote(Kind::Cert, 1, 0, 5, 1))?;
    agrees(rt, zero, Event::Vote(vote(Kind::Cert, 1, 0, 5, 2)), 5)?;
    hears(rt, one, vote(Kind::Cert, 1, 0, 6, 3))?;
    hears(rt, one, vote(Kind::Cert, 1, 0, 5, 2))?;
    agrees(rt, one, Event::Vote(vote(Kind::Cert, 1, 0, 5, 0)), 5)?;
    hears(rt, two, vote(Kind::Cert, 1, 0, 5, 0))?;
    agrees(rt, two, Event::Vote(vote(Kind::Cert, 1, 0, 5, 1)), 5)?;
    answers(
        rt,
        two,
        Event::Timeout,
        Answer::Refused(Refusal::AgreedBefore, 0),
    )
}

#[test]
fn all_agree(rt: HostRuntime) -> Result<(), Fail> {
    let mut honest = opened(&rt)?;
    quiet(&rt, &mut honest.zero, block(5))?;
    quiet(&rt, &mut honest.one, block(5))?;
    quiet(&rt, &mut honest.two, block(5))?;
    vote_first(&rt, &mut honest)?;
    all_certain(&rt, &mut honest)?;
    each_agrees(&rt, &mut honest)
}
