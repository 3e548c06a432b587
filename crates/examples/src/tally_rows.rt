// Rows of members with just a quorum and with one vote less, and every slot of the largest limits.
// Kept so: the tests write to the votes between looks, and `HeardVotes` only lends them to be read.
ghost use Rattle.std.specs.Prelude.{◌≡◌, ◌<◌, ◌≤◌, length};
ghost use Rattle.limits.specs.Limits.{limits_of};
ghost use Rattle.protocol.specs.Promises.{all};
ghost use Rattle.tally.specs.Layout.{votes_size};

use limits::Limits;
use std::process::Abort;
use std::test::Fail;
use tally::{HeardVotes, ValidVote, clear, votes_size};
use values::Value;
use wire::{Kind, Vote};

// Two values that differ in the last of their four numbers.
fn value(last: u64) -> Value {
    Value::from([5, 0, 0, last])
}

fn soft(limits: Limits, last: u64, from: u64) -> ValidVote
    requires from { from < limits.members }
    ensures limits { result.limits ≡ limits }
{
    let vote = Vote {
        kind: Kind::Soft.into(),
        period: 1,
        step: 0,
        value: value(last),
        from,
    };
    ValidVote { limits, vote }
}

// Members from `first` on and below `last` vote for one value, the others for another.
fn vote_all(votes: &mut [u64], limits: Limits, first: u64, last: u64)
    requires votes { length votes.old ≡ votes_size (limits_of all limits) }
{
    clear(votes);
    for from in 0..limits.members {
        let number = if first <= from && from < last { 1 } else { 2 };
        soft(limits, number, from).hear(votes);
    }
}

// So many are for one value as voted so, and the others for the other. A quorum is for the first just if `yes`, and
// then it is chosen, since its block is here.
fn check_quorum(
    rt: &impl Abort,
    votes: &mut [u64],
    limits: Limits,
    first: u64,
    last: u64,
    yes: bool,
) -> Result<(), Fail>
    requires votes { length votes.old ≡ votes_size (limits_of all limits) }
{
    vote_all(votes, limits, first, last);
    assert!(rt; first <= last && last <= limits.members);
    let one = soft(limits, 1, 0);
    let other = soft(limits, 2, 0);
    assert_eq!(rt; one.count(votes), last - first);
    assert_eq!(rt; other.count(votes), limits.members - (last - first));
    assert_eq!(rt; one.has_quorum(votes), yes);
    let blocks = [5, 0, 0, 1];
    let chosen = HeardVotes { limits, votes }.chosen(1, &blocks, 1);
    assert_eq!(rt; chosen, yes.then_some(value(1)));
    Ok(())
}

// A quorum of the first members, and of the last, is one; one member less is none.
fn check_edges(rt: &impl Abort, votes: &mut [u64], limits: Limits, quorum: u64) -> Result<(), Fail>
    requires votes { length votes.old ≡ votes_size (limits_of all limits) }
{
    let members = limits.members;
    assert!(rt; 1 <= quorum && quorum <= members);
    check_quorum(rt, votes, limits, 0, quorum, true)?;
    check_quorum(rt, votes, limits, 0, quorum - 1, false)?;
    check_quorum(rt, votes, limits, members - quorum, members, true)?;
    check_quorum(rt, votes, limits, members - quorum + 1, members, false)
}

fn check_row(rt: &impl Abort, members: u64, quorum: u64) -> Result<(), Fail> {
    let limits = Limits::new(members, 1, 1, 1).map_err(|_| Fail::new("limits"))?;
    let size = votes_size(limits) as usize;
    let mut memory = [7; 2048];
    assert!(rt; size <= 2048);
    check_edges(rt, &mut memory[0..size], limits, quorum)
}

// Of n members a quorum is n less a third of n - 1, rounded down.
#[test]
fn rows(rt: HostRuntime) -> Result<(), Fail> {
    check_row(&rt, 1, 1)?;
    check_row(&rt, 2, 2)?;
    check_row(&rt, 3, 3)?;
    check_row(&rt, 4, 3)?;
    check_row(&rt, 7, 5)?;
    check_row(&rt, 63, 43)?;
    check_row(&rt, 64, 43)
}

// The vote of member `from` in each of a period's slots: soft, cert, eight steps to go on with a value,
// eight with none.
fn at_place(limits: Limits, period: u64, place: u64, from: u64) -> ValidVote
    requires some { 1 ≤ period }
    requires few { period ≤ limits.periods }
    requires steps { limits.steps ≡ 8 }
    requires place { place < 18 }
    requires from { from < limits.members }
    ensures limits { result.limits ≡ limits }
{
    let (kind, step) = match place {
        0 => (Kind::Soft, 0),
        1 => (Kind::Cert, 0),
        2..=9 => (Kind::Next, place),
        _ => (Kind::NextNone, place - 8),
    };
    let vote = Vote {
        kind: kind.into(),
        period,
        step,
        value: Value::zero(),
        from,
    };
    ValidVote { limits, vote }
}

// Each slot of each member is free until it is heard in.
fn hear_all(rt: &impl Abort, votes: &mut [u64], limits: Limits)
    requires votes { length votes.old ≡ votes_size (limits_of all limits) }
    requires steps { limits.steps ≡ 8 }
{
    clear(votes);
    for period in 0..limits.periods {
        for place in 0..18 {
            for from in 0..limits.members {
                let vote = at_place(limits, period + 1, place, from);
                assert!(rt; !vote.taken(votes));
                vote.hear(votes);
            }
        }
    }
}

// How many entries were heard in.
fn heard(votes: &[u64]) -> usize {
    votes.chunks_exact(8).filter(|entry| entry[0] == 1).count()
}

// The 64 * 32 * 18 votes lie in as many entries, which are all that there are.
#[test]
fn all_slots(rt: HostRuntime) -> Result<(), Fail> {
    let limits = Limits::new(64, 32, 8, 256).map_err(|_| Fail::new("limits"))?;
    assert_eq!(rt; votes_size(limits), 294912);
    let mut memory = vec![in rt.alloc(); 7; votes_size(limits) as usize]?;
    hear_all(&rt, &mut memory, limits);
    assert_eq!(rt; heard(&memory), 36864);
    Ok(())
}
