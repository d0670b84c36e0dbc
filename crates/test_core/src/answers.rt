//! What comes back, as it is printed.
use anyhow::{Result, bail};
use ftn_addr::Bytes;
use node_model::DeskFault;
use session_core::{End, Took, refuse, turn_away};
use std::alloc::Global;
use test_script::{number, shown, word};

/// How a session goes on, or how it ended.
pub type Came = Result<&'static str, End>;

/// An answer, and what was written, which is forgotten then.
pub fn with_written(alloc: Global, answer: &str, out: &mut Bytes) -> Result<String> {
    let written = shown(alloc, out.as_slice())?;
    out.clear();
    Ok(format!(in alloc; "{answer} \"{written}\"")?)
}

/// A name, and texts behind it.
pub fn named(alloc: Global, name: &str, texts: &[&Bytes]) -> Result<String> {
    let mut text = String::from_str(alloc, name)?;
    for part in texts {
        text.push_str(" ")?;
        text.push_str(shown(alloc, part.as_slice())?.as_str())?;
    }
    Ok(text)
}

fn end_text(alloc: Global, end: &End) -> Result<String> {
    match end {
        End::PeerError(said) => named(alloc, "PeerError", &[said]),
        End::BadPassword(wanted, given) => named(alloc, "BadPassword", &[wanted, given]),
        end => Ok(format!(in alloc; "{end:?}")?),
    }
}

/// What became of a frame.
pub fn came_of(took: Took) -> Came {
    match took {
        Took::More => Ok("More"),
        Took::Ended(end) => Err(end),
    }
}

/// What came of a session, and what was written.
pub fn came_text(alloc: Global, came: Came, out: &mut Bytes) -> Result<String> {
    match came {
        Ok(more) => with_written(alloc, more, out),
        Err(end) => {
            let end = end_text(alloc, &end)?;
            with_written(alloc, end.as_str(), out)
        }
    }
}

fn fault_of(words: &[&str]) -> Result<DeskFault> {
    Ok(match word(words, 1) {
        "disk" => DeskFault::Disk(number(words, 2)?),
        "read" => DeskFault::Read(number(words, 2)?),
        "full" => DeskFault::Full,
        "memory" => DeskFault::NoMemory,
        _ => bail!("no such fault"),
    })
}

/// How a caller is refused that has no session yet.
pub fn refused(alloc: Global, words: &[&str]) -> Result<String> {
    let mut out = Bytes::new(alloc);
    let took = match word(words, 0) {
        "turn_away" => turn_away(alloc, &mut out),
        "refuse" => refuse(alloc, fault_of(words)?, &mut out),
        _ => bail!("nothing was made"),
    };
    came_text(alloc, came_of(took), &mut out)
}
