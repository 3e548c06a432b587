// The first lines of a file: `network MEMBERS PERIODS STEPS BLOCKS`, and then a line `faulty I` for each faulty member.
ghost use Rattle.std.specs.Prelude.{◌≡◌};

use limits::Limits;
use network::Members;
use script::{FaultyError, first_line, read_faulty};
use std::error::Error;
use std::fmt;
use text::{NetworkError, read_network};

// What is left of a file, and how many lines came before it.
#[derive(Drop)]
pub(crate) struct Script<'a> {
    pub(crate) rest: &'a [u8],
    pub(crate) at: u64,
}

impl<'a> Script<'a> {
    // Goes on after a line, with what follows it.
    pub(crate) fn pass(&mut self, rest: &'a [u8])
        ensures { self.new.rest.now ≡ rest.now }
    {
        self.rest = rest;
        self.at = self.at.saturating_add(1);
    }
}

// Who plays: what the header says.
#[derive(Clone, Copy)]
pub(crate) struct Header {
    pub(crate) limits: Limits,
    pub(crate) faulty: Members,
}

// Why a file has no header.
#[derive(Clone, Copy, PartialEq, Eq, Debug)]
pub(crate) enum HeaderError {
    Empty,
    NoLimits(NetworkError),
    // no number follows `faulty`, after so many lines
    NotNumber(u64),
    // one that is no member's does
    NotMember(u64),
}

impl fmt::Display for HeaderError {
    fn fmt<W: fmt::Write>(&self, f: &mut fmt::Formatter<W>) -> fmt::Result {
        match *self {
            HeaderError::Empty => write!(
                f,
                "line 1: the file is empty, and not 'network MEMBERS PERIODS STEPS BLOCKS'"
            ),
            HeaderError::NoLimits(error) => write!(f, "line 1: {error}"),
            HeaderError::NotNumber(at) => write!(
                f,
                "line {}: it is not 'faulty I', a number in decimal without zeros before it",
                at.saturating_add(1)
            ),
            HeaderError::NotMember(at) => write!(
                f,
                "line {}: there is no member of this number",
                at.saturating_add(1)
            ),
        }
    }
}

impl Error for HeaderError {}

fn read_limits(script: &mut Script) -> Result<Limits, HeaderError> {
    let (line, rest) = first_line(script.rest).ok_or(HeaderError::Empty)?;
    script.pass(rest);
    read_network(line).map_err(HeaderError::NoLimits)
}

// The header, up to the first line after the limits whose first word is not `faulty`.
pub(crate) fn read_header(script: &mut Script) -> Result<Header, HeaderError> {
    let limits = read_limits(script)?;
    let mut faulty = Members::none();
    while let Some((line, rest)) = first_line(script.rest) {
        match read_faulty(line) {
            Ok(member) if member < limits.members => faulty = faulty.with(member),
            Ok(_) => return Err(HeaderError::NotMember(script.at)),
            Err(FaultyError::NotFaulty) => break,
            Err(FaultyError::NotNumber) => return Err(HeaderError::NotNumber(script.at)),
        }
        script.pass(rest);
    }
    Ok(Header { limits, faulty })
}
