// A play: a network in its memory, each event as it is delivered, and where the honest members stand at the end.
use crate::files::read_file;
use crate::header::{Header, Script, read_header};
use anyhow::anyhow;
use lines::AnswerLine;
use network::{BeginError, Network};
use script::{MemberLine, PlayedLine, first_line, read_delivery};
use wire::{Answer, Refusal};

// How many bytes are lent to all honest members together unless `--memory` says otherwise. A file may always have as
// many.
pub(crate) const LENT: u64 = 65_536;

// A network in memory of no more than `lent` bytes.
fn begin(rt: &HostRuntime, header: Header, lent: u64) -> anyhow::Result<Network> {
    let Header { limits, faulty } = header;
    // no network of these limits asks for more, so no more is taken
    let most = limits.members.saturating_mul(limits.memory());
    let memory = vec![in rt.alloc(); 0u64; most.min(lent / 8) as usize]?;
    Network::new(memory, limits, faulty).map_err(|error| match error {
        BeginError::TooManyFaulty => anyhow!("{error}"),
        BeginError::TooShort(_) => anyhow!("{error}, and {lent} are lent: --memory lends more"),
    })
}

// A line that delivers nothing is refused by 1, and its place is the line's number.
fn play_line(rt: &HostRuntime, network: &mut Network, line: &[u8], at: u64) -> anyhow::Result<()> {
    // Kept so: the pair is named before it is taken apart: the borrow checker does not reach into an event in `Some`.
    let Some(delivery) = read_delivery(line) else {
        println!(rt; "{}", AnswerLine(Answer::Refused(Refusal::NoEvent, at)))?;
        return Ok(());
    };
    let (to, event) = delivery;
    let outcome = network.deliver(to, event);
    println!(rt; "{}", PlayedLine { to, event, outcome })?;
    Ok(())
}

fn play_lines(rt: &HostRuntime, network: &mut Network, mut script: Script) -> anyhow::Result<()> {
    while let Some((line, rest)) = first_line(script.rest) {
        play_line(rt, network, line, script.at)?;
        script.pass(rest);
    }
    Ok(())
}

fn show_members(rt: &HostRuntime, network: &Network, members: u64) -> anyhow::Result<()> {
    for member in 0..members {
        if let Some(at) = network.look(member) {
            let line = MemberLine {
                member,
                period: at.period,
                step: at.step,
                agreed: at.agreed,
            };
            println!(rt; "{line}")?;
        }
    }
    Ok(())
}

// Plays a file, with `lent` bytes for the honest members together; where that is more, the file may have as many.
pub(crate) fn play(rt: &HostRuntime, path: &str, lent: u64) -> anyhow::Result<()> {
    let text = read_file(rt, path, lent.max(LENT))?;
    let mut script = Script {
        rest: text.as_slice(),
        at: 0,
    };
    let header = read_header(&mut script)?;
    let mut network = begin(rt, header, lent)?;
    play_lines(rt, &mut network, script)?;
    show_members(rt, &network, header.limits.members)
}
