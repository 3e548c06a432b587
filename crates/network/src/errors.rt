// Why a network does not begin, and why an event is not delivered.
ghost use Rattle.std.specs.Prelude.{Some};
ghost use Rattle.network.specs.Errors.{begin_error_text, deliver_error_text};

use std::error::Error;
use std::fmt;

#[derive(Clone, Copy, PartialEq, Eq, Debug)]
pub enum BeginError {
    // a third or more are faulty
    TooManyFaulty,
    // so many numbers of eight bytes are needed for all honest members together
    TooShort(u64),
}

impl fmt::Display for BeginError {
    ghost output = { λ x. Some (begin_error_text x) };

    fn fmt<W: fmt::Write>(&self, f: &mut fmt::Formatter<W>) -> fmt::Result {
        match *self {
            BeginError::TooManyFaulty => write!(f, "a third or more of the members are faulty"),
            BeginError::TooShort(numbers) => {
                let bytes = numbers.saturating_mul(8);
                write!(f, "the honest members need {bytes} bytes of memory")
            }
        }
    }
}

impl Error for BeginError {}

#[derive(Clone, Copy, PartialEq, Eq, Debug)]
pub enum DeliverError {
    NotMember,
    // faulty members do as they like: nothing is delivered to them
    Faulty,
    // a vote in the name of an honest member that never said it
    NotSaid,
}

impl fmt::Display for DeliverError {
    ghost output = { λ x. Some (deliver_error_text x) };

    fn fmt<W: fmt::Write>(&self, f: &mut fmt::Formatter<W>) -> fmt::Result {
        match *self {
            DeliverError::NotMember => write!(f, "not a member"),
            DeliverError::Faulty => write!(f, "faulty"),
            DeliverError::NotSaid => write!(f, "not said"),
        }
    }
}

impl Error for DeliverError {}
