// The bytes of each event and answer, written out by hand, and each first byte with too little, enough and too much.
use crate::hex::unhex;
use std::cmp::Ordering;
use std::process::Abort;
use std::test::Fail;
use values::Value;
use wire::{
    Answer, Event, Kind, Proposal, Refusal, Said, Vote, read_answer, read_event, write_answer,
    write_event,
};

// A soft, or a cert, vote of period 1 for value 5, from member 0.
fn first_vote(kind: Kind) -> Vote {
    Vote {
        kind: kind.into(),
        period: 1,
        step: 0,
        value: Value::from([5, 0, 0, 0]),
        from: 0,
    }
}

// What has bytes of its own.
trait Coded: Copy + PartialEq {
    fn read(bytes: &[u8]) -> Result<Self, usize>;

    fn write(self, out: &mut [u8]) -> Result<usize, usize>;
}

impl Coded for Event {
    fn read(bytes: &[u8]) -> Result<Event, usize> {
        read_event(bytes)
    }

    fn write(self, out: &mut [u8]) -> Result<usize, usize> {
        write_event(out, self)
    }
}

impl Coded for Answer {
    fn read(bytes: &[u8]) -> Result<Answer, usize> {
        read_answer(bytes)
    }

    fn write(self, out: &mut [u8]) -> Result<usize, usize> {
        write_answer(out, self)
    }
}

// It has just these bytes: they are read as it, and it is written as them; what comes after them stays, and with a byte
// less of room nothing is written.
fn check<T: Coded>(rt: &impl Abort, coded: T, digits: &[u8]) -> Result<(), Fail> {
    let mut bytes = [0; 180];
    let n = unhex(digits, &mut bytes);
    let read = T::read(&bytes[0..n]).map_err(|_| Fail::new("not read"))?;
    assert!(rt; read == coded, "what is read");
    let mut out = [170; 180];
    assert_eq!(rt; coded.write(&mut out), Ok(n));
    assert!(rt; n > 0 && n < 180);
    assert!(rt; &out[0..n] == &bytes[0..n], "the bytes written");
    assert_eq!(rt; out[n], 170);
    let mut tight = [170; 180];
    assert_eq!(rt; coded.write(&mut tight[0..n - 1]), Err(n));
    assert!(rt; tight == [170; 180], "nothing is written");
    Ok(())
}

#[test]
fn vote_bytes(rt: HostRuntime) -> Result<(), Fail> {
    let value = Value::from([1, 2, 3, 4]);
    let vote = Vote {
        kind: Kind::Next.into(),
        period: 258,
        step: 4,
        value,
        from: 6,
    };
    check(
        &rt,
        Event::Vote(vote),
        b"00\
          020000000000000002010000000000000400000000000000\
          0100000000000000020000000000000003000000000000000400000000000000\
          0600000000000000",
    )
}

// A kind that is none is read all the same: it is out of range, and not unreadable.
#[test]
fn vote_of_no_kind(rt: HostRuntime) -> Result<(), Fail> {
    let vote = Vote {
        kind: 7,
        period: 0,
        step: u64::MAX,
        value: Value::zero(),
        from: 0,
    };
    check(
        &rt,
        Event::Vote(vote),
        b"00\
          07000000000000000000000000000000ffffffffffffffff\
          0000000000000000000000000000000000000000000000000000000000000000\
          0000000000000000",
    )
}

#[test]
fn proposal_bytes(rt: HostRuntime) -> Result<(), Fail> {
    let proposal = Proposal {
        period: 3,
        rank: 7,
        value: Value::from([5, 0, 0, 0]),
    };
    check(
        &rt,
        Event::Proposal(proposal),
        b"01\
          03000000000000000700000000000000\
          0500000000000000000000000000000000000000000000000000000000000000",
    )
}

#[test]
fn block_bytes(rt: HostRuntime) -> Result<(), Fail> {
    let value = Value::from([0, 1, 0, 0]);
    check(
        &rt,
        Event::Block(value),
        b"020000000000000000010000000000000000000000000000000000000000000000",
    )?;
    check(
        &rt,
        Event::Block(Value::zero()),
        b"020000000000000000000000000000000000000000000000000000000000000000",
    )?;
    let most = Value::from([u64::MAX, u64::MAX, u64::MAX, u64::MAX]);
    check(
        &rt,
        Event::Block(most),
        b"02ffffffffffffffffffffffffffffffffffffffffffffffffffffffffffffffff",
    )
}

#[test]
fn timeout_bytes(rt: HostRuntime) -> Result<(), Fail> {
    check(&rt, Event::Timeout, b"03")
}

// Where so many bytes with this first one, and zeros after it, cease to be an event; none if they are one.
fn place(first: u8, count: usize) -> Option<usize> {
    let mut bytes = [0; 70];
    bytes[0] = first;
    if count > 70 {
        return None;
    }
    read_event(&bytes[0..count]).err()
}

// Where they should: an event of so many bytes in all.
fn expected(size: usize, count: usize) -> Option<usize> {
    match count.cmp(&size) {
        Ordering::Less => Some(count),
        Ordering::Equal => None,
        Ordering::Greater => Some(size),
    }
}

#[test]
fn each_first_byte(rt: HostRuntime) {
    for first in 0..=255u8 {
        assert_eq!(rt; place(first, 0), Some(0));
        for count in 1..71 {
            let should = match first {
                0 => expected(65, count),
                1 => expected(49, count),
                2 => expected(33, count),
                3 => expected(1, count),
                _ => Some(0),
            };
            assert_eq!(rt; place(first, count), should);
        }
    }
}

#[test]
fn refused_bytes(rt: HostRuntime) -> Result<(), Fail> {
    check(
        &rt,
        Answer::Refused(Refusal::NoEvent, 65),
        b"0001000000000000004100000000000000",
    )?;
    check(
        &rt,
        Answer::Refused(Refusal::NoMoreBlocks, 0),
        b"0006000000000000000000000000000000",
    )
}

#[test]
fn silent_bytes(rt: HostRuntime) -> Result<(), Fail> {
    check(
        &rt,
        Answer::Says(Said::Nothing, None),
        b"01000000000000000000",
    )
}

#[test]
fn one_vote_bytes(rt: HostRuntime) -> Result<(), Fail> {
    check(
        &rt,
        Answer::Says(Said::One(first_vote(Kind::Soft)), None),
        b"01\
          0100000000000000\
          000000000000000001000000000000000000000000000000\
          0500000000000000000000000000000000000000000000000000000000000000\
          0000000000000000\
          00",
    )
}

#[test]
fn agreed_bytes(rt: HostRuntime) -> Result<(), Fail> {
    check(
        &rt,
        Answer::Says(Said::Nothing, Some(Value::from([5, 0, 0, 0]))),
        b"010000000000000000010500000000000000000000000000000000000000000000000000000000000000",
    )
}

#[test]
fn two_votes_bytes(rt: HostRuntime) -> Result<(), Fail> {
    let said = Said::Two(first_vote(Kind::Soft), first_vote(Kind::Cert));
    check(
        &rt,
        Answer::Says(said, Some(Value::from([5, 0, 0, 0]))),
        b"01\
          0200000000000000\
          000000000000000001000000000000000000000000000000\
          0500000000000000000000000000000000000000000000000000000000000000\
          0000000000000000\
          010000000000000001000000000000000000000000000000\
          0500000000000000000000000000000000000000000000000000000000000000\
          0000000000000000\
          01\
          0500000000000000000000000000000000000000000000000000000000000000",
    )
}

// Where the bytes that these digits write cease to be an answer.
fn answer_place(digits: &[u8]) -> Option<usize> {
    let mut bytes = [0; 180];
    let n = unhex(digits, &mut bytes);
    read_answer(&bytes[0..n]).err()
}

#[test]
fn no_answers(rt: HostRuntime) {
    assert_eq!(rt; answer_place(b""), Some(0));
    assert_eq!(rt; answer_place(b"02"), Some(0), "unknown first byte");
    assert_eq!(rt;
        answer_place(b"00010000"),
        Some(4),
        "a refusal's number cut short"
    );
    assert_eq!(rt;
        answer_place(b"000000000000000000"),
        Some(1),
        "no refusal 0"
    );
    assert_eq!(rt;
        answer_place(b"000700000000000000"),
        Some(1),
        "no refusal 7"
    );
    assert_eq!(rt;
        answer_place(b"0001000000000000004100"),
        Some(11),
        "a place cut short"
    );
    assert_eq!(rt;
        answer_place(b"000100000000000000410000000000000000"),
        Some(17),
        "a byte too many"
    );
    assert_eq!(rt; answer_place(b"010300000000000000"), Some(1), "three votes");
    assert_eq!(rt;
        answer_place(b"010000000000000000"),
        Some(9),
        "nothing on what is agreed"
    );
    assert_eq!(rt;
        answer_place(b"01000000000000000002"),
        Some(9),
        "neither none nor one"
    );
    assert_eq!(rt;
        answer_place(b"0100000000000000000000"),
        Some(10),
        "a byte too many"
    );
    assert_eq!(rt;
        answer_place(b"010100000000000000ff"),
        Some(10),
        "a vote cut short"
    );
    assert_eq!(rt;
        answer_place(b"010000000000000000010500"),
        Some(12),
        "a value cut short"
    );
}
