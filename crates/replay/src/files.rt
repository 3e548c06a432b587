// A file that is read whole, if it is not too long.
use anyhow::anyhow;
use std::alloc::AllocError;
use std::fs::File;
use std::io;
use std::io::{ErrorKind, Read};

// Want of memory while a file is read has the same words as elsewhere.
// Kept so: `node` has these lines too; each program is on its own.
fn reading(error: io::Error) -> anyhow::Error {
    match (error.kind(), error.raw_os_error()) {
        (ErrorKind::OutOfMemory, None) => AllocError.into(),
        _ => error.into(),
    }
}

// All bytes of a file up to one more than `most`, which shows that it is too long.
fn read_some(rt: &HostRuntime, path: &str, most: u64) -> anyhow::Result<Vec<u8>> {
    let mut text = Vec::new(rt.alloc());
    let mut file = File::open(rt, path)?.take(most.saturating_add(1));
    // by a buffer apart, so that a text that fills its memory needs no more to see that the file ends
    io::copy(&mut file, &mut text).map_err(reading)?;
    Ok(text)
}

// All bytes of a file of no more than `most`. Of a longer one no more is read than shows it.
pub(crate) fn read_file(rt: &HostRuntime, path: &str, most: u64) -> anyhow::Result<Vec<u8>> {
    let text = read_some(rt, path, most).map_err(|error| anyhow!("it cannot be read: {error}"))?;
    if text.len() as u64 > most {
        return Err(anyhow!("it has more than {most} bytes: --memory lends more"));
    }
    Ok(text)
}
