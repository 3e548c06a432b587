// The line `network MEMBERS PERIODS STEPS BLOCKS`.
ghost use Rattle.std.specs.Prelude.{◌≡◌, Some, MatchResult, decimal};
ghost use Rattle.text.specs.Network.{Fields, IsNumber, Reads, error_text};

use super::numbers::number;
use super::words::{cut, is_word};
use limits::{Limit, Limits};
use std::error::Error;
use std::fmt;

// Why a line gives no limits.
#[derive(Clone, Copy, PartialEq, Eq, Debug)]
pub enum NetworkError {
    // it is not the word `network` and four others
    NotNetwork,
    // this word of it is not a number below 2^64 in decimal, without zeros before it
    NotNumber(Limit),
    OutOfRange(Limit),
}

impl fmt::Display for NetworkError {
    ghost output = { λ x. Some (error_text x) };

    fn fmt<W: fmt::Write>(&self, f: &mut fmt::Formatter<W>) -> fmt::Result {
        match *self {
            NetworkError::NotNetwork => write!(
                f,
                "it is not 'network MEMBERS PERIODS STEPS BLOCKS'"
            ),
            NetworkError::NotNumber(limit) => {
                write!(
                    f,
                    "{limit} is no number below 2^64 in decimal without zeros before it"
                )
            }
            NetworkError::OutOfRange(limit) => {
                let most = limit.most();
                write!(f, "{limit} is not 1 to {most}")
            }
        }
    }
}

impl Error for NetworkError {}

// The four words after `network`.
// Kept so: the words are named where they are taken apart, at once; a struct for them would name them twice.
fn fields(line: &[u8]) -> Option<(&[u8], &[u8], &[u8], &[u8])>
    ensures is { Fields line.now result }
{
    let (name, after_name) = cut(line, b' ')?;
    let (members, after_members) = cut(after_name, b' ')?;
    let (periods, after_periods) = cut(after_members, b' ')?;
    let (steps, blocks) = cut(after_periods, b' ')?;
    if !is_word(name, b"network") {
        return None;
    }
    if cut(blocks, b' ').is_some() {
        return None;
    }
    Some((members, periods, steps, blocks))
}

// The number that the word of a limit spells.
fn read_limit(limit: Limit, word: &[u8]) -> Result<u64, NetworkError>
    ensures is { MatchResult result (λ n. word.now ≡ decimal n)
        (λ e. (e ≡ NetworkError.NotNumber limit) × (IsNumber word.now → ⊥)) }
{
    number(word).ok_or(NetworkError::NotNumber(limit))
}

// The limits that a line says, or why it says none: the first reason that applies.
pub fn read_network(line: &[u8]) -> Result<Limits, NetworkError>
    ensures is { Reads line.now result }
{
    let (members, periods, steps, blocks) = fields(line).ok_or(NetworkError::NotNetwork)?;
    let members = read_limit(Limit::Members, members)?;
    let periods = read_limit(Limit::Periods, periods)?;
    let steps = read_limit(Limit::Steps, steps)?;
    let blocks = read_limit(Limit::Blocks, blocks)?;
    Limits::new(members, periods, steps, blocks).map_err(NetworkError::OutOfRange)
}
