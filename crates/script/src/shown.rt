// How a play is printed: each delivery with what came of it, and where a member stands at the end.
ghost use Rattle.std.specs.Prelude.{Some};
ghost use Rattle.wire.specs.Meaning.{event_of, agreed_of};
ghost use Rattle.script.specs.Shown.{played_text, member_text};

use lines::{AnswerLine, EventText};
use network::DeliverError;
use std::fmt;
use values::Value;
use wire::{Answer, Event, Said};

// A delivery that was played, to be shown as its line, a colon, and what came of it: the member's answer, or why it was
// not delivered.
#[derive(Clone, Copy)]
pub struct PlayedLine {
    pub to: u64,
    pub event: Event,
    pub outcome: Result<Answer, DeliverError>,
}

impl fmt::Display for PlayedLine {
    ghost output = { λ x. Some (played_text x.to (event_of x.event) x.outcome) };

    fn fmt<W: fmt::Write>(&self, f: &mut fmt::Formatter<W>) -> fmt::Result {
        let PlayedLine { to, event, outcome } = *self;
        let event = EventText(event);
        write!(f, "{to} {event}: ")?;
        match outcome {
            Ok(answer) => write!(f, "{}", AnswerLine(answer)),
            Err(error) => write!(f, "{error}"),
        }
    }
}

// Where a member stands, to be shown as the line at the end of a play.
#[derive(Clone, Copy)]
pub struct MemberLine {
    pub member: u64,
    pub period: u64,
    pub step: u64,
    pub agreed: Option<Value>,
}

impl fmt::Display for MemberLine {
    ghost output = { λ x. Some (member_text x.member x.period x.step (agreed_of x.agreed)) };

    fn fmt<W: fmt::Write>(&self, f: &mut fmt::Formatter<W>) -> fmt::Result {
        let MemberLine {
            member,
            period,
            step,
            agreed,
        } = *self;
        // an answer of no votes is what is agreed on
        let agreed = AnswerLine(Answer::Says(Said::Nothing, agreed));
        write!(f, "member {member}: period {period}, step {step}, {agreed}")
    }
}
