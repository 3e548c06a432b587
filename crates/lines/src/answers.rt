// Answers as text: a part for each vote that is said, and then `agreed none`, `agreed VALUE` or `refused NUMBER PLACE`.
ghost use Rattle.std.specs.Prelude.{◌++◌, map, Some};
ghost use Rattle.std.specs.Fmt.{WritesOnOk};
ghost use Rattle.wire.specs.Meaning.{refusal_number, vote_of, said_of, agreed_of, answer_of};
ghost use Rattle.lines.specs.Between.{between, followed};
ghost use Rattle.lines.specs.Answers.{vote_text, agreed_text, refused_text, answer_parts, answer_line, answer_lines};

use crate::shown::put_vote;
use decimals::Decimal;
use std::fmt;
use values::Value;
use wire::{Answer, Refusal, Said, Vote};

// A vote, and a separator after it.
fn put_followed<W: fmt::Write>(vote: Vote, sep: &str, f: &mut fmt::Formatter<W>) -> fmt::Result
    ensures is { WritesOnOk W.write_str_gives f.old result
        (vote_text (vote_of vote) ++ sep.now) f.new }
{
    put_vote(vote, f)?;
    f.write_str(sep)
}

// The votes, with a separator after each.
fn put_said<W: fmt::Write>(said: Said, sep: &str, f: &mut fmt::Formatter<W>) -> fmt::Result
    ensures is { WritesOnOk W.write_str_gives f.old result
        (followed sep.now (map vote_text (said_of said))) f.new }
{
    match said {
        Said::Nothing => Ok(()),
        Said::One(vote) => put_followed(vote, sep, f),
        Said::Two(first, second) => {
            put_followed(first, sep, f)?;
            put_followed(second, sep, f)
        }
    }
}

fn put_agreed<W: fmt::Write>(agreed: Option<Value>, f: &mut fmt::Formatter<W>) -> fmt::Result
    ensures is { WritesOnOk W.write_str_gives f.old result (agreed_text (agreed_of agreed)) f.new }
{
    match agreed {
        None => write!(f, "agreed none"),
        Some(value) => {
            let value = Decimal(value);
            write!(f, "agreed {value}")
        }
    }
}

fn put_refused<W: fmt::Write>(
    refusal: Refusal,
    place: u64,
    f: &mut fmt::Formatter<W>,
) -> fmt::Result
    ensures is { WritesOnOk W.write_str_gives f.old result (refused_text (refusal_number refusal) place) f.new }
{
    let number = u64::from(refusal);
    write!(f, "refused {number} {place}")
}

// The parts, with a separator between them.
fn put_answer<W: fmt::Write>(answer: Answer, sep: &str, f: &mut fmt::Formatter<W>) -> fmt::Result
    ensures is { WritesOnOk W.write_str_gives f.old result
        (between sep.now (answer_parts (answer_of answer))) f.new }
{
    match answer {
        Answer::Refused(refusal, place) => put_refused(refusal, place, f),
        Answer::Says(said, agreed) => {
            put_said(said, sep, f)?;
            put_agreed(agreed, f)
        }
    }
}

// Kept so: the two forms share `put_answer`; one type that holds a separator and an ending would let any other form in.

// An answer, to be shown as lines, each ended by a line feed.
#[derive(Clone, Copy)]
pub struct AnswerLines(pub Answer);

impl fmt::Display for AnswerLines {
    ghost output = { λ x. Some (answer_lines (answer_of x.0)) };

    fn fmt<W: fmt::Write>(&self, f: &mut fmt::Formatter<W>) -> fmt::Result {
        put_answer(self.0, "\n", f)?;
        f.write_str("\n")
    }
}

// An answer, to be shown in one line, with `; ` between its parts.
#[derive(Clone, Copy)]
pub struct AnswerLine(pub Answer);

impl fmt::Display for AnswerLine {
    ghost output = { λ x. Some (answer_line (answer_of x.0)) };

    fn fmt<W: fmt::Write>(&self, f: &mut fmt::Formatter<W>) -> fmt::Result {
        put_answer(self.0, "; ", f)
    }
}
