//! How a desk in memory is told to answer, and what it tells.
ghost use Rattle.std.specs.Prelude.{◌≡◌};
ghost use Rattle.mem_desk.specs.DeskStates.{part_of};

use anyhow::{Result, bail};
use ftn_addr::FileKey;
use mem_desk::{Next, ScriptedDesk};
use node_model::FileIn;
use std::alloc::Global;
use test_script::{bytes, number, word};

/// The time of the files that wait for the peer.
const TIME: u64 = 1_000_000_000;

fn next_of(word: &str) -> Result<Next> {
    Ok(match word {
        "works" => Next::Works,
        "disk" => Next::DiskFails,
        "read" => Next::ReadFails,
        "full" => Next::IsFull,
        "memory" => Next::NoMemory,
        _ => bail!("no such fault"),
    })
}

fn answer_of(words: &[&str]) -> Result<FileIn> {
    Ok(match word(words, 1) {
        "go" => FileIn::Go,
        "whole" => FileIn::Whole,
        "have" => FileIn::Have,
        "refuse" => FileIn::Refuse,
        "elsewhere" => FileIn::Elsewhere,
        "from" => FileIn::From(number(words, 2)?),
        "late" => FileIn::Late,
        _ => bail!("no such answer"),
    })
}

fn key_of(alloc: Global, words: &[&str]) -> Result<FileKey> {
    Ok(FileKey {
        size: number(words, 2)?,
        name: bytes(alloc, word(words, 1))?,
        time: TIME,
    })
}

fn told(alloc: Global, desk: &ScriptedDesk) -> Result<String> {
    let (settled, skipped) = (desk.settled(), desk.skipped());
    let (taken, received, broken) = (desk.taken(), desk.receipts(), desk.broken());
    Ok(format!(in alloc;
        "settled {settled}, skipped {skipped}, taken {taken}, received {received}, broken {broken:?}"
    )?)
}

fn ask(alloc: Global, desk: &ScriptedDesk, word: &str) -> Result<Option<String>> {
    match word {
        "began" => Ok(Some(format!(in alloc; "{:?}", desk.begun())?)),
        "told" => Ok(Some(told(alloc, desk)?)),
        _ => Ok(None),
    }
}

/// Tells a desk what the words say, or asks it. The answer is empty where it tells nothing, and none where the words are no call
/// of a desk.
pub fn desk_call(alloc: Global, desk: &mut ScriptedDesk, words: &[&str]) -> Result<Option<String>>
    ensures { part_of desk.new ≡ part_of desk.old }
{
    match word(words, 0) {
        "queue" => desk.queue(key_of(alloc, words)?),
        "next" => desk.set_next(next_of(word(words, 1))?),
        "answer" => desk.set_answer(answer_of(words)?),
        asked => return ask(alloc, desk, asked),
    }
    Ok(Some(String::new(alloc)))
}
