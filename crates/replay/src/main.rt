// Plays networks from files: `replay [--memory BYTES] FILE...`.
#![tactic(auto)]

mod files;
mod header;
mod plays;

use crate::plays::{LENT, play};
use anyhow::Context;
use std::process::ExitCode;
use std::{env, fmt};
use text::number;

const USAGE: &str = "usage: replay [--memory BYTES] FILE...";

// What is asked for: the files to play, and what is lent for each.
#[derive(Drop)]
struct Asked {
    lent: u64,
    files: env::Args,
    first: String,
}

fn arguments(rt: &HostRuntime) -> anyhow::Result<Asked> {
    let mut args = env::args(rt)?;
    let _ = args.next();
    let first = args.next().context(USAGE)?;
    if first.as_str() != "--memory" {
        return Ok(Asked {
            lent: LENT,
            files: args,
            first,
        });
    }
    let bytes = args.next().context(USAGE)?;
    let lent = number(bytes.as_bytes()).context(
        "BYTES is no number below 2^64 in decimal without zeros before it",
    )?;
    let first = args.next().context(USAGE)?;
    Ok(Asked {
        lent,
        files: args,
        first,
    })
}

// Why it ends early. What is wrong with a file names it, so that it is plain which of several it was; a path has any
// length, and an anyhow::Error keeps a short text.
#[derive(Drop)]
enum ReplayError {
    Arguments(anyhow::Error),
    File(String, anyhow::Error),
}

impl fmt::Display for ReplayError {
    fn fmt<W: fmt::Write>(&self, f: &mut fmt::Formatter<W>) -> fmt::Result {
        match self {
            ReplayError::Arguments(error) => write!(f, "{error}"),
            ReplayError::File(path, error) => write!(f, "{path}: {error}"),
        }
    }
}

fn play_file(rt: &HostRuntime, path: String, lent: u64) -> Result<(), ReplayError> {
    play(rt, path.as_str(), lent).map_err(|error| ReplayError::File(path, error))
}

// Plays one file after the other, up to the first that is refused.
fn run(rt: &HostRuntime) -> Result<(), ReplayError> {
    let Asked { lent, files, first } = arguments(rt).map_err(ReplayError::Arguments)?;
    play_file(rt, first, lent)?;
    for path in files {
        play_file(rt, path, lent)?;
    }
    Ok(())
}

// A refusal is one line on standard error, and status 1.
// Kept so: three programs, each on its own; a crate for a `main` of eight lines would be more.
fn main(rt: HostRuntime) -> ExitCode {
    match run(&rt) {
        Ok(()) => ExitCode::SUCCESS,
        Err(error) => {
            let _ = eprintln!(rt; "replay: {error}");
            ExitCode::FAILURE
        }
    }
}
