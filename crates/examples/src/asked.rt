// Asking a member by bytes, and the events and answers of the rows to come.
use member::{call, look};
use std::process::Abort;
use std::test::Fail;
use values::Value;
use wire::{Answer, Event, Kind, Proposal, Said, Vote, write_event};

pub(crate) fn vote(kind: Kind, period: u64, step: u64, value: u64, from: u64) -> Vote {
    Vote {
        kind: kind.into(),
        period,
        step,
        value: Value::from([value, 0, 0, 0]),
        from,
    }
}

pub(crate) fn proposal(period: u64, value: u64) -> Event {
    Event::Proposal(Proposal {
        period,
        rank: 0,
        value: Value::from([value, 0, 0, 0]),
    })
}

pub(crate) fn block(value: u64) -> Event {
    Event::Block(Value::from([value, 0, 0, 0]))
}

// The member answers the event's bytes so.
pub(crate) fn answers(
    rt: &impl Abort,
    memory: &mut [u64],
    event: Event,
    answer: Answer,
) -> Result<(), Fail> {
    let mut bytes = [0; 65];
    let n = write_event(&mut bytes, event).map_err(|_| Fail::new("no room"))?;
    assert!(rt; n <= 65);
    assert_eq!(rt; call(memory, &bytes[0..n]), Ok(answer));
    Ok(())
}

pub(crate) fn quiet(rt: &impl Abort, memory: &mut [u64], event: Event) -> Result<(), Fail> {
    answers(rt, memory, event, Answer::Says(Said::Nothing, None))
}

pub(crate) fn hears(rt: &impl Abort, memory: &mut [u64], vote: Vote) -> Result<(), Fail> {
    quiet(rt, memory, Event::Vote(vote))
}

// It says one vote.
pub(crate) fn says(
    rt: &impl Abort,
    memory: &mut [u64],
    event: Event,
    said: Vote,
) -> Result<(), Fail> {
    answers(rt, memory, event, Answer::Says(Said::One(said), None))
}

// It agrees on the value, and says nothing.
pub(crate) fn agrees(
    rt: &impl Abort,
    memory: &mut [u64],
    event: Event,
    value: u64,
) -> Result<(), Fail> {
    answers(
        rt,
        memory,
        event,
        Answer::Says(Said::Nothing, Some(Value::from([value, 0, 0, 0]))),
    )
}

// It stands in this period, at this step, and began the period with this value, or free if there is none.
pub(crate) fn stands(
    rt: &impl Abort,
    memory: &[u64],
    period: u64,
    step: u64,
    start: Option<u64>,
) -> Result<(), Fail> {
    let member = look(memory).ok_or_else(|| Fail::new("not open"))?;
    assert_eq!(rt; member.period, period);
    assert_eq!(rt; member.step, step);
    assert_eq!(rt; member.free, start.is_none());
    let start = start.map(|number| Value::from([number, 0, 0, 0]));
    assert!(rt; member.start == start, "the starting value");
    Ok(())
}
