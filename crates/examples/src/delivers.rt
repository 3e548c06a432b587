// A network of four that runs, of whom number 3 is faulty: when it begins, what is delivered, and what is agreed.
use crate::asked::{block, proposal, vote};
use limits::Limits;
use network::{BeginError, DeliverError, Members, Network};
use std::alloc::Global;
use std::process::Abort;
use std::test::Fail;
use values::Value;
use wire::{Event, Kind};

// Each member asks for 8 * 4 * 2 * 4 + 8 * 2 + 4 * 2 + 64 numbers.
const SIZE: usize = 344;

fn begin(
    heap: Global,
    members: u64,
    faulty: Members,
    size: usize,
) -> Result<Result<Network, BeginError>, Fail> {
    let memory = vec![in heap; 7u64; size]?;
    let limits = Limits::new(members, 2, 1, 2).map_err(|_| Fail::new("no limits"))?;
    Ok(Network::new(memory, limits, faulty))
}

// Why a network does not begin, if it does not.
fn why_not(
    heap: Global,
    members: u64,
    faulty: Members,
    size: usize,
) -> Result<Option<BeginError>, Fail> {
    Ok(begin(heap, members, faulty, size)?.err())
}

// Fewer than a third are faulty: 1 of 4 and 2 of 7, and not 1 of 3, 2 of 4 or 3 of 7. Three honest members of four
// share the memory; numbers that are nobody's do not count.
#[test]
fn begins(rt: HostRuntime) -> Result<(), Fail> {
    let one = Members::none().with(0);
    let two = one.with(2);
    let three = two.with(1);
    assert_eq!(rt;
        why_not(rt.alloc(), 4, one.with(4).with(63).with(64), 3 * SIZE)?,
        None
    );
    assert_eq!(rt;
        why_not(rt.alloc(), 4, one, 3 * SIZE - 1)?,
        Some(BeginError::TooShort(1032))
    );
    assert_eq!(rt; why_not(rt.alloc(), 1, Members::none(), 1000)?, None);
    assert_eq!(rt; why_not(rt.alloc(), 7, two, 10000)?, None);
    assert_eq!(rt;
        why_not(rt.alloc(), 3, one, 10000)?,
        Some(BeginError::TooManyFaulty)
    );
    assert_eq!(rt;
        why_not(rt.alloc(), 4, two, 10000)?,
        Some(BeginError::TooManyFaulty)
    );
    assert_eq!(rt;
        why_not(rt.alloc(), 7, three, 0)?,
        Some(BeginError::TooManyFaulty)
    );
    Ok(())
}

fn four(heap: Global) -> Result<Network, Fail> {
    begin(heap, 4, Members::none().with(3), 3 * SIZE)?.map_err(|_| Fail::new("not begun"))
}

fn delivers(rt: &impl Abort, network: &mut Network, to: u64, event: Event) {
    assert_eq!(rt; network.deliver(to, event).err(), None);
}

fn refuses(rt: &impl Abort, network: &mut Network, to: u64, event: Event, why: DeliverError) {
    assert_eq!(rt; network.deliver(to, event), Err(why));
}

// A vote of a faulty member comes at any time; one of an honest member once it said it, and to all; nothing comes to a
// faulty member, or to nobody.
#[test]
fn comes(rt: HostRuntime) -> Result<(), Fail> {
    let mut network = four(rt.alloc())?;
    let said = Event::Vote(vote(Kind::Soft, 1, 0, 5, 0));
    let other = Event::Vote(vote(Kind::Soft, 1, 0, 6, 0));
    refuses(
        &rt,
        &mut network,
        4,
        Event::Timeout,
        DeliverError::NotMember,
    );
    refuses(&rt, &mut network, 3, Event::Timeout, DeliverError::Faulty);
    refuses(&rt, &mut network, 1, said, DeliverError::NotSaid);
    refuses(
        &rt,
        &mut network,
        1,
        Event::Vote(vote(Kind::Soft, 1, 0, 5, 9)),
        DeliverError::NotSaid,
    );
    delivers(
        &rt,
        &mut network,
        1,
        Event::Vote(vote(Kind::Soft, 1, 0, 6, 3)),
    );
    delivers(
        &rt,
        &mut network,
        2,
        Event::Vote(vote(Kind::Soft, 1, 0, 5, 3)),
    );
    delivers(&rt, &mut network, 0, proposal(1, 5));
    delivers(&rt, &mut network, 0, Event::Timeout);
    delivers(&rt, &mut network, 1, said);
    delivers(&rt, &mut network, 2, said);
    refuses(&rt, &mut network, 1, other, DeliverError::NotSaid);
    Ok(())
}

// Votes of a kind for 5, of each honest member, come to each of the others.
fn exchange(rt: &impl Abort, network: &mut Network, kind: Kind) {
    for from in 0..3 {
        for to in 0..3 {
            if from != to {
                delivers(rt, network, to, Event::Vote(vote(kind, 1, 0, 5, from)));
            }
        }
    }
}

// The three honest ones are a quorum, and agree; the faulty one is not looked at.
#[test]
fn agree(rt: HostRuntime) -> Result<(), Fail> {
    let mut network = four(rt.alloc())?;
    for to in 0..3 {
        delivers(&rt, &mut network, to, proposal(1, 5));
        delivers(&rt, &mut network, to, block(5));
        delivers(&rt, &mut network, to, Event::Timeout);
    }
    exchange(&rt, &mut network, Kind::Soft);
    assert!(rt; network.agreed().is_none());
    exchange(&rt, &mut network, Kind::Cert);
    assert!(rt; network.look(3).is_none());
    for i in 0..3 {
        let member = network
            .look(i)
            .ok_or_else(|| Fail::new("no honest member"))?;
        assert!(rt;
            member.me == i && member.period == 1 && member.step == 1 && member.agreed.is_some()
        );
    }
    assert!(rt; network.agreed() == Some(Value::from([5, 0, 0, 0])));
    Ok(())
}
