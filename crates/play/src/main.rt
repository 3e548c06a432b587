// Plays a network from a file: `play FILE`.
#![tactic(auto)]

use anyhow::{Context, anyhow};
use limits::Limits;
use script::first_line;
use std::process::ExitCode;
use std::{env, fmt, fs, io};
use text::read_network;

const USAGE: &str = "usage: play FILE";

fn show(rt: &HostRuntime, limits: Limits) -> anyhow::Result<()> {
    println!(rt;
        "network {} {} {} {}: quorum {}, memory {} bytes a member",
        limits.members,
        limits.periods,
        limits.steps,
        limits.blocks,
        limits.quorum(),
        limits.memory_bytes()
    )?;
    Ok(())
}

// Why nothing is shown. An anyhow::Error keeps a short text, and a path has any length.
#[derive(Drop)]
enum PlayError {
    Unread(String, io::Error),
    Other(anyhow::Error),
}

impl fmt::Display for PlayError {
    fn fmt<W: fmt::Write>(&self, f: &mut fmt::Formatter<W>) -> fmt::Result {
        match self {
            PlayError::Unread(path, error) => write!(f, "cannot read {path}: {error}"),
            PlayError::Other(error) => write!(f, "{error}"),
        }
    }
}

impl From<anyhow::Error> for PlayError {
    fn from(error: anyhow::Error) -> PlayError {
        PlayError::Other(error)
    }
}

fn read(rt: &HostRuntime, path: String) -> Result<Vec<u8>, PlayError> {
    fs::read(rt, path.as_str()).map_err(|error| PlayError::Unread(path, error))
}

fn play(rt: &HostRuntime, text: &[u8]) -> anyhow::Result<()> {
    let (line, _) = first_line(text).context(
        "the file is empty: its first line is 'network MEMBERS PERIODS STEPS BLOCKS'",
    )?;
    let limits = read_network(line).map_err(|error| anyhow!("line 1: {error}"))?;
    show(rt, limits)
}

fn argument(rt: &HostRuntime) -> anyhow::Result<String> {
    let mut args = env::args(rt)?;
    let _ = args.next();
    let path = args.next().context(USAGE)?;
    if args.next().is_some() {
        return Err(anyhow!("{USAGE}"));
    }
    Ok(path)
}

fn run(rt: &HostRuntime) -> Result<(), PlayError> {
    let path = argument(rt)?;
    let text = read(rt, path)?;
    play(rt, text.as_slice())?;
    Ok(())
}

// A refusal is one line on standard error, and status 1.
// Kept so: three programs, each on its own; a crate for a `main` of eight lines would be more.
fn main(rt: HostRuntime) -> ExitCode {
    match run(&rt) {
        Ok(()) => ExitCode::SUCCESS,
        Err(error) => {
            let _ = eprintln!(rt; "play: {error}");
            ExitCode::FAILURE
        }
    }
}
