// Why a member is not opened, and that none is.
ghost use Rattle.std.specs.Prelude.{Some};
ghost use Rattle.member.specs.Shown.{open_error_text, not_open_text};

use limits::Limit;
use std::error::Error;
use std::fmt;

#[derive(Clone, Copy, PartialEq, Eq, Debug)]
pub enum OpenError {
    // the first limit that is out of range
    OutOfRange(Limit),
    // the own number is no member's
    NotMember,
    // the memory is too short: so many numbers of eight bytes are needed
    TooShort(u64),
}

impl fmt::Display for OpenError {
    ghost output = { λ x. Some (open_error_text x) };

    fn fmt<W: fmt::Write>(&self, f: &mut fmt::Formatter<W>) -> fmt::Result {
        match *self {
            // Kept so: text's `NetworkError` has this arm too; a type for the one arm of each would be longer.
            OpenError::OutOfRange(limit) => {
                let most = limit.most();
                write!(f, "{limit} is not 1 to {most}")
            }
            OpenError::NotMember => write!(f, "ME is not below MEMBERS"),
            OpenError::TooShort(_) => write!(f, "the memory is too short"),
        }
    }
}

impl Error for OpenError {}

// The memory holds no member.
#[derive(Clone, Copy, PartialEq, Eq, Debug)]
pub struct NotOpen;

impl fmt::Display for NotOpen {
    ghost output = { λ _. Some not_open_text };

    fn fmt<W: fmt::Write>(&self, f: &mut fmt::Formatter<W>) -> fmt::Result {
        write!(f, "the memory holds no member")
    }
}

impl Error for NotOpen {}
