// What a member answers, and its bytes: byte 0, the refusal and its place; or byte 1, the number of votes, the votes,
// then byte 0, or byte 1 and the value agreed on.
ghost use Rattle.std.specs.Prelude.{◌≡◌, ◌+◌, ◌*◌, ◌<◌, ◌≤◌, true, length, take, IfOk, Ok, Err, OnOk, slice_index};
ghost use Rattle.values.specs.Digits.{le_number};
ghost use Rattle.std.specs.Option.{ok_or};
ghost use Rattle.protocol.specs.Member.{says};
ghost use Rattle.wire.specs.Bytes.{agreed_bytes, agreed_by, answer_bytes, answer_in, part};
ghost use Rattle.wire.specs.Bytes.{reaching, refused_by, said_bytes, says_by, Written};
ghost use Rattle.wire.specs.Statements.{sayable, votes_fit};
ghost use Rattle.wire.specs.Meaning.{refusal_number, refusal_of, said_of, agreed_of, answer_of, answer_read};

use crate::events::{room, whole};
use crate::votes::{read_vote, write_vote};
use crate::{UnknownNumber, Vote};
use values::{Value, read_number, read_value, write_number, write_value};

#[derive(Clone, Copy, Debug, PartialEq, Eq)]
pub enum Refusal {
    NoEvent = 1,
    OutOfRange = 2,
    AgreedBefore = 3,
    VotedBefore = 4,
    NoMoreTime = 5,
    NoMoreBlocks = 6,
}

impl From<Refusal> for u64 {
    ghost from_gives = { λ refusal number. number ≡ refusal_number refusal };

    fn from(refusal: Refusal) -> u64 {
        refusal as u64
    }
}

impl TryFrom<u64> for Refusal {
    type Error = UnknownNumber;

    ghost try_from_gives = { λ number result. result ≡ ok_or (refusal_of number) (record { 0 = number }) };

    fn try_from(number: u64) -> Result<Refusal, UnknownNumber> {
        match number {
            1 => Ok(Refusal::NoEvent),
            2 => Ok(Refusal::OutOfRange),
            3 => Ok(Refusal::AgreedBefore),
            4 => Ok(Refusal::VotedBefore),
            5 => Ok(Refusal::NoMoreTime),
            6 => Ok(Refusal::NoMoreBlocks),
            _ => Err(UnknownNumber(number)),
        }
    }
}

// The votes that a member says on one event: never more than two.
// Kept so: an `Option<(Vote, Option<Vote>)>` would be no plainer, and a list of its own needs the heap.
#[derive(Clone, Copy, Debug, PartialEq, Eq)]
pub enum Said {
    Nothing,
    One(Vote),
    Two(Vote, Vote),
}

// Kept so: a refusal is an answer with bytes of its own, not a failure; as a Result callers would read `Ok(Err(..))`.
#[derive(Clone, Copy, Debug, PartialEq, Eq)]
pub enum Answer {
    // why, and at which place of the event's bytes
    Refused(Refusal, u64),
    // the votes that it says, the first first, and what it agreed on
    Says(Said, Option<Value>),
}

// There is a byte at this place, or where the bytes end.
fn reaches(bytes: &[u8], place: usize) -> Result<(), usize>
    ensures is { result ≡ reaching Err place bytes.now (Ok tt) }
{
    if bytes.len() <= place {
        Err(bytes.len())
    } else {
        Ok(())
    }
}

// A refusal, whose number the bytes hold.
fn read_refused(bytes: &[u8]) -> Result<Answer, usize>
    requires { 8 < length bytes.now }
    ensures is { answer_read result ≡ refused_by (le_number (part 1 8 bytes.now)) bytes.now }
{
    let refusal = Refusal::try_from(read_number(&bytes[1..9])).map_err(|_| 1usize)?;
    whole(bytes, 17)?;
    Ok(Answer::Refused(refusal, read_number(&bytes[9..17])))
}

// What is agreed on, beside the votes said: it is at this place.
fn read_agreed(bytes: &[u8], at: usize, said: Said) -> Result<Answer, usize>
    requires { (at < length bytes.now) × (at ≤ 137) }
    ensures is { answer_read result ≡ agreed_by (slice_index bytes.now at) at (said_of said)
        bytes.now }
{
    match bytes[at] {
        0 => {
            whole(bytes, at + 1)?;
            Ok(Answer::Says(said, None))
        }
        1 => {
            whole(bytes, at + 33)?;
            Ok(Answer::Says(said, Some(read_value(&bytes[at + 1..at + 33]))))
        }
        _ => Err(at),
    }
}

// Votes that are said, whose number the bytes hold.
fn read_says(bytes: &[u8]) -> Result<Answer, usize>
    requires { 8 < length bytes.now }
    ensures is { answer_read result ≡ says_by (le_number (part 1 8 bytes.now)) bytes.now }
{
    match read_number(&bytes[1..9]) {
        0 => {
            reaches(bytes, 9)?;
            read_agreed(bytes, 9, Said::Nothing)
        }
        1 => {
            reaches(bytes, 73)?;
            let vote = read_vote(&bytes[9..73]);
            read_agreed(bytes, 73, Said::One(vote))
        }
        2 => {
            reaches(bytes, 137)?;
            let first = read_vote(&bytes[9..73]);
            let second = read_vote(&bytes[73..137]);
            read_agreed(bytes, 137, Said::Two(first, second))
        }
        _ => Err(1),
    }
}

// The answer that the bytes are, or the place at which they cease to be one.
#[tactic(auto, unfolding(crate::specs::Bytes::answer_in))]
pub fn read_answer(bytes: &[u8]) -> Result<Answer, usize>
    ensures is { answer_read result ≡ answer_in bytes.now }
    ensures fits { IfOk (answer_read result) (λ a. sayable a ≡ true) }
{
    match bytes.first() {
        Some(0) => {
            reaches(bytes, 8)?;
            read_refused(bytes)
        }
        Some(1) => {
            reaches(bytes, 8)?;
            read_says(bytes)
        }
        _ => Err(0),
    }
}

impl Said {
    // How many bytes the votes take, with their number.
    fn size(self) -> usize
        ensures is { result ≡ 8 + 64 * length (said_of self) }
        ensures fits { (8 ≤ result) × (result ≤ 136) }
    {
        match self {
            Said::Nothing => 8,
            Said::One(_) => 72,
            Said::Two(_, _) => 136,
        }
    }
}

#[tactic(auto, unfolding(crate::specs::Statements::votes_fit))]
fn write_said(part: &mut [u8], said: Said)
    requires { length part.old ≡ 8 + 64 * length (said_of said) }
    ensures is { part.new ≡ said_bytes (said_of said) }
    ensures fits { votes_fit (said_of said) ≡ true }
{
    match said {
        Said::Nothing => write_number(part, 0),
        Said::One(vote) => {
            write_number(&mut part[0..8], 1);
            write_vote(&mut part[8..72], vote);
        }
        Said::Two(first, second) => {
            write_number(&mut part[0..8], 2);
            write_vote(&mut part[8..72], first);
            write_vote(&mut part[72..136], second);
        }
    }
}

// How many bytes what is agreed on takes.
fn agreed_size(agreed: Option<Value>) -> usize
    ensures is { result ≡ 1 + 32 * length (agreed_of agreed) }
    ensures fits { (1 ≤ result) × (result ≤ 33) }
{
    match agreed {
        None => 1,
        Some(_) => 33,
    }
}

fn write_agreed(part: &mut [u8], agreed: Option<Value>)
    requires { length part.old ≡ 1 + 32 * length (agreed_of agreed) }
    ensures is { part.new ≡ agreed_bytes (agreed_of agreed) }
{
    match agreed {
        None => part[0] = 0,
        Some(value) => {
            part[0] = 1;
            write_value(&mut part[1..33], value);
        }
    }
}

// Writes the bytes of votes that are said, and of what is agreed on.
#[tactic(auto, using(crate::proofs::Fields::sizes, crate::proofs::AnswersBack::held_says_fits))]
fn write_says(out: &mut [u8], said: Said, agreed: Option<Value>) -> Result<usize, usize>
    ensures is { Written (answer_bytes (says (said_of said) (agreed_of agreed)))
        out.old out.new result }
    ensures fits { OnOk result (sayable (says (said_of said) (agreed_of agreed)) ≡ true) }
{
    let at = 1 + said.size();
    let end = at + agreed_size(agreed);
    room(out, end)?;
    out[0] = 1;
    write_said(&mut out[1..at], said);
    write_agreed(&mut out[at..end], agreed);
    Ok(end)
}

// Writes the answer's bytes, and gives their number; or gives the number needed, and writes nothing. What is written is
// read back as the answer.
#[tactic(auto, using(crate::proofs::Fields::sizes))]
pub fn write_answer(out: &mut [u8], answer: Answer) -> Result<usize, usize>
    ensures is { Written (answer_bytes (answer_of answer)) out.old out.new result }
    ensures back { IfOk result (λ n. answer_in (take n out.new) ≡ Ok (answer_of answer)) }
{
    match answer {
        Answer::Refused(refusal, place) => {
            room(out, 17)?;
            out[0] = 0;
            write_number(&mut out[1..9], refusal.into());
            write_number(&mut out[9..17], place);
            Ok(17)
        }
        Answer::Says(said, agreed) => write_says(out, said, agreed),
    }
}
