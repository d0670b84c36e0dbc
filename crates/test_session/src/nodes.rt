//! Nodes, by their words.
use crate::words::{node_number, number};
use anyhow::{Result, bail};
use mem_talk::Node;
use std::alloc::Global;
use test_script::word;

/// The largest limit of a session, which is 2 to the 62.
const MOST: u64 = 4_611_686_018_427_387_904;

fn ending(alloc: Global, own: u16, limit: u64) -> Result<Node> {
    if limit == 0 || limit > MOST {
        bail!("no such limit")
    }
    Ok(Node::ending_at(alloc, own, limit)?)
}

/// The node of these words, with nothing in it.
pub fn node_of(alloc: Global, words: &[&str]) -> Result<Node> {
    let own = node_number(words, 1)?;
    let limit = || number(words, 3, 0);
    Ok(match word(words, 2) {
        "" => Node::new(alloc, own)?,
        "refusing" => Node::refusing(alloc, own, word(words, 3).as_bytes())?,
        "above" => Node::refusing_above(alloc, own, limit()?)?,
        "ending" => ending(alloc, own, limit()?)?,
        "knowing" => {
            let other = node_number(words, 3)?;
            Node::knowing(alloc, own, other, word(words, 4).as_bytes())?
        }
        _ => bail!("no such node"),
    })
}
