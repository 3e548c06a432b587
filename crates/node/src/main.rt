// One member, by lines: `node MEMBERS PERIODS STEPS BLOCKS ME`. Events come on standard input, and the answer to each
// goes to standard output at once.
#![tactic(auto)]

use anyhow::{Context, anyhow};
use limits::Limits;
use lines::{AnswerLines, read_line};
use member::{OpenError, call, open};
use std::alloc::AllocError;
use std::io::{BufRead, BufReader, ErrorKind, Lock, Read};
use std::process::ExitCode;
use std::{env, io};
use text::number;
use wire::write_event;

const USAGE: &str = "usage: node MEMBERS PERIODS STEPS BLOCKS ME";

// No event's line is longer; what is longer is refused without being kept.
const LONGEST: usize = 512;

// A line that is no event is refused by 1, and its place is the line's number.
fn refuse(rt: &HostRuntime, at: u64) -> anyhow::Result<()> {
    println!(rt; "refused 1 {at}")?;
    Ok(())
}

// The answer to the event of a line.
fn answer(rt: &HostRuntime, memory: &mut Vec<u64>, line: &[u8], at: u64) -> anyhow::Result<()> {
    let Some(event) = read_line(line) else {
        return refuse(rt, at);
    };
    // Kept so: the event goes by its bytes to `call`, which is what everything is proved of; none has more than 65.
    let mut bytes = [0; 65];
    let length = write_event(&mut bytes, event).unwrap();
    let answer = call(memory.as_mut_slice(), &bytes[..length])?;
    print!(rt; "{}", AnswerLines(answer))?;
    Ok(())
}

// Passes over the rest of a line. Says whether more may follow: not where the input ended the line.
fn skip_line<R: BufRead>(input: &mut R) -> io::Result<bool> {
    // Kept so: a loop has to be known to end, and nothing says that a line does.
    for _ in 0..u64::MAX {
        let part = input.fill_buf()?;
        let length = part.len();
        let end = part.iter().position(|byte| *byte == b'\n');
        input.consume(end.map_or(length, |at| at.saturating_add(1)));
        if end.is_some() || length == 0 {
            return Ok(end.is_some());
        }
    }
    Ok(false)
}

// Reads the next line, without its line feed, or as much of it as shows that it is too long. Says whether more may
// follow: not where the input ended the line.
fn read_one<R: BufRead>(input: &mut R, line: &mut Vec<u8>) -> io::Result<bool> {
    line.clear();
    input
        .by_ref()
        .take(LONGEST as u64 + 1)
        .read_until(b'\n', line)?;
    if line.last() == Some(&b'\n') {
        line.pop();
        return Ok(true);
    }
    if line.len() > LONGEST {
        return skip_line(input);
    }
    Ok(false)
}

// Want of memory while a line is read has the same words as elsewhere.
// Kept so: `replay` has these lines too; each program is on its own.
fn reading(error: io::Error) -> anyhow::Error {
    match (error.kind(), error.raw_os_error()) {
        (ErrorKind::OutOfMemory, None) => AllocError.into(),
        _ => error.into(),
    }
}

// Answers each line of the input at once, up to its end. A last line without its line feed is a line too.
fn play<R: BufRead>(rt: &HostRuntime, memory: &mut Vec<u64>, input: &mut R) -> anyhow::Result<()> {
    let mut line = Vec::new(rt.alloc());
    // Kept so: a loop has to be known to end, and nothing says that the input does; the count is the line's number.
    for at in 0..u64::MAX {
        let more = read_one(input, &mut line).map_err(reading)?;
        if line.len() > LONGEST {
            refuse(rt, at)?;
        } else if more || !line.is_empty() {
            answer(rt, memory, line.as_slice(), at)?;
        }
        if !more {
            break;
        }
    }
    Ok(())
}

// What is asked for at opening.
#[derive(Clone, Copy)]
struct Asked {
    members: u64,
    periods: u64,
    steps: u64,
    blocks: u64,
    me: u64,
}

// The next argument as a number.
fn argument(args: &mut env::Args) -> anyhow::Result<u64> {
    let word = args.next().context(USAGE)?;
    number(word.as_bytes()).context(format_args!("{USAGE}, each a number"))
}

fn arguments(rt: &HostRuntime) -> anyhow::Result<Asked> {
    let mut args = env::args(rt)?;
    let _ = args.next();
    let asked = Asked {
        members: argument(&mut args)?,
        periods: argument(&mut args)?,
        steps: argument(&mut args)?,
        blocks: argument(&mut args)?,
        me: argument(&mut args)?,
    };
    if args.next().is_some() {
        return Err(anyhow!("{USAGE}"));
    }
    Ok(asked)
}

fn run(rt: &HostRuntime) -> anyhow::Result<()> {
    let Asked {
        members,
        periods,
        steps,
        blocks,
        me,
    } = arguments(rt)?;
    let limits = Limits::new(members, periods, steps, blocks).map_err(OpenError::OutOfRange)?;
    let mut memory = vec![in rt.alloc(); 0; limits.memory() as usize]?;
    open(memory.as_mut_slice(), members, periods, steps, blocks, me)?;
    match BufReader::new(rt.alloc(), rt.stdin()) {
        Ok(mut input) => play(rt, &mut memory, &mut input),
        // no memory for a buffer is no reason to end: a line may need less
        Err(_) => play(rt, &mut memory, &mut rt.stdin().lock()),
    }
}

// A refusal to start is one line on standard error, and status 1.
// Kept so: three programs, each on its own; a crate for a `main` of eight lines would be more.
fn main(rt: HostRuntime) -> ExitCode {
    match run(&rt) {
        Ok(()) => ExitCode::SUCCESS,
        Err(error) => {
            let _ = eprintln!(rt; "node: {error}");
            ExitCode::FAILURE
        }
    }
}
