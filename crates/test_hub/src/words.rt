//! What the words of a line name, and what is printed of an answer.
ghost use Rattle.std.specs.Prelude.{◌≡◌, IfOk};
ghost use Rattle.ftn_addr.specs.Address.{address};
ghost use Rattle.ftn_addr.specs.Key.{key_of};
ghost use Rattle.ftn_addr.specs.Limits.{IsAddress, IsKey};
ghost use Rattle.node_model.specs.StoreWords.{FitsQueue, entry_of};

use anyhow::{Result, bail};
use ftn_addr::{Action, Addr, Bytes, FileKey, MAX_ADDRESS_NUMBER, MAX_NAME};
use node_model::{Flavour, NewFile};
use std::alloc::Global;
use std::fmt::Debug;
use test_script::{bytes, number, shown, word};

/// What is printed of a call that wasn't made, since its conditions aren't met.
pub fn unmet(alloc: Global) -> Result<String> {
    Ok(String::from_str(alloc, "condition not met")?)
}

/// An answer as it is printed.
pub fn said<T: Debug + Drop>(alloc: Global, answer: T) -> Result<String> {
    Ok(format!(in alloc; "{answer:?}")?)
}

/// Bytes between quotation marks.
pub fn quoted(alloc: Global, bytes: &[u8]) -> Result<String> {
    let text = shown(alloc, bytes)?;
    Ok(format!(in alloc; "\"{text}\"")?)
}

/// The address of the node of 2:5020 at a place.
pub fn node(alloc: Global, words: &[&str], place: usize) -> Result<Addr>
    ensures { IfOk result (λ addr. IsAddress (address addr)) }
{
    let node = word(words, place).parse::<u16>()?;
    if node > MAX_ADDRESS_NUMBER {
        bail!("no such node")
    }
    Ok(Addr {
        zone: 2,
        net: 5020,
        node,
        point: 0,
        domain: Bytes::from_slice(alloc, b"fidonet")?,
    })
}

/// The key of the name and the size at two places.
pub fn key(alloc: Global, words: &[&str], name: usize, size: usize) -> Result<FileKey>
    ensures { IfOk result (λ key. IsKey (key_of key)) }
{
    let size = number(words, size)?;
    let name = bytes(alloc, word(words, name))?;
    if name.is_empty() || name.len() > MAX_NAME {
        bail!("no such name")
    }
    Ok(FileKey {
        name,
        size,
        time: 1_000_000_000,
    })
}

/// The flavour of that name.
pub fn flavour_of(word: &str) -> Result<Flavour> {
    Ok(match word {
        "Immediate" => Flavour::Immediate,
        "Crash" => Flavour::Crash,
        "Direct" => Flavour::Direct,
        "Normal" => Flavour::Normal,
        "Hold" => Flavour::Hold,
        _ => bail!("no such flavour"),
    })
}

fn action_of(word: &str) -> Result<Action> {
    Ok(match word {
        "" | "Leave" => Action::Leave,
        "Delete" => Action::Delete,
        "Cut" => Action::Cut,
        _ => bail!("no such action"),
    })
}

/// A file that is to be queued: the node that it is for, its name, size and flavour, and behind one word more, the outside file
/// that it came from, and what is done with that.
pub fn new_file(alloc: Global, words: &[&str]) -> Result<Box<NewFile>>
    ensures { IfOk result (λ file. FitsQueue (entry_of file.value)) }
{
    let (flavour, action) = (flavour_of(word(words, 4))?, action_of(word(words, 7))?);
    let source = bytes(alloc, word(words, 6))?;
    if source.len() > 1_024 {
        bail!("no such path")
    }
    let dest = node(alloc, words, 1)?;
    let file = NewFile {
        number: 0,
        dest,
        key: key(alloc, words, 2, 3)?,
        source,
        action,
        flavour,
    };
    Ok(Box::new(alloc, file)?)
}
