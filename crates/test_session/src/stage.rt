//! What a script plays over: the node that is being made, a peer with its session, and two nodes.
use crate::nodes::node_of;
use crate::pairs::pair_call;
use crate::peers::peer_call;
use crate::slow::slow_call;
use crate::words::{files, node_number, number};
use anyhow::{Context, Result, bail};
use mem_talk::{Node, Pair, Peer};
use std::alloc::Global;
use std::mem;
use test_script::{behind, word, words_of};

#[derive(Drop)]
pub struct Stage {
    rt: HostRuntime,
    /// The node that is being made.
    node: Option<Node>,
    /// The one that is to be the far one of two.
    far: Option<Node>,
    talk: Talk,
}

/// Who talks.
#[derive(Drop)]
enum Talk {
    Nobody,
    /// A peer, with a node's session.
    Peer(Box<Peer>),
    /// Two nodes.
    Pair(Box<Pair>),
}

fn pair_of(alloc: Global, near: Option<Node>, far: Option<Node>) -> Result<Talk> {
    match (near, far) {
        (Some(near), Some(far)) => Ok(Talk::Pair(Box::new(alloc, Pair::new(near, far))?)),
        _ => bail!("no two nodes"),
    }
}

// A peer of a node that calls the node of that number, or answers where there is none.
fn peer_of(alloc: Global, node: Option<Node>, calls: Option<u16>) -> Result<Talk> {
    let Some(node) = node else { bail!("no node") };
    let peer = Peer::new(alloc, node, calls)?;
    Ok(Talk::Peer(Box::new(alloc, peer)?))
}

// The peer's node, as its session left it.
fn left(talk: Talk) -> Result<Node> {
    match talk {
        Talk::Peer(peer) => Ok(Box::into_inner(peer).into_node()),
        _ => bail!("no peer"),
    }
}

fn again(alloc: Global, talk: &mut Talk) -> Result<()> {
    let Talk::Peer(peer) = talk else {
        bail!("no peer")
    };
    peer.again(alloc)?;
    Ok(())
}

// The number of the node that is called, where one is.
fn calls_of(words: &[&str]) -> Result<Option<u16>> {
    if word(words, 1).is_empty() {
        return Ok(None);
    }
    Ok(Some(node_number(words, 1)?))
}

fn queue(alloc: Global, node: &mut Option<Node>, dest: u16, text: &str) -> Result<()> {
    let Some(node) = node else { bail!("no node") };
    let files = files(alloc, text)?;
    node.queue(alloc, dest, files.as_slice())?;
    Ok(())
}

impl Stage {
    /// With nothing on it.
    pub fn new(rt: HostRuntime) -> Stage {
        Stage {
            rt,
            node: None,
            far: None,
            talk: Talk::Nobody,
        }
    }

    fn make_pair(&mut self) -> Result<()> {
        let (near, far) = (self.node.take(), self.far.take());
        self.talk = pair_of(self.rt.alloc(), near, far)?;
        Ok(())
    }

    fn make_peer(&mut self, words: &[&str]) -> Result<()> {
        let calls = calls_of(words)?;
        let node = self.node.take();
        self.talk = peer_of(self.rt.alloc(), node, calls)?;
        Ok(())
    }

    // The peer leaves, and its node is the one that is being made.
    fn leave(&mut self) -> Result<()> {
        let talk = mem::replace(&mut self.talk, Talk::Nobody);
        self.node = Some(left(talk)?);
        Ok(())
    }

    fn queue(&mut self, line: &str, words: &[&str]) -> Result<()> {
        let dest = node_number(words, 1)?;
        queue(self.rt.alloc(), &mut self.node, dest, behind(behind(line)))
    }

    // Whether the words make a node, a peer or a pair.
    fn makes(&mut self, line: &str, words: &[&str]) -> Result<bool> {
        match word(words, 0) {
            "node" => self.node = Some(node_of(self.rt.alloc(), words)?),
            "queue" => self.queue(line, words)?,
            "far" => self.far = self.node.take(),
            "pair" => self.make_pair()?,
            "peer" => self.make_peer(words)?,
            "again" => again(self.rt.alloc(), &mut self.talk)?,
            "leave" => self.leave()?,
            _ => return Ok(false),
        }
        Ok(true)
    }

    // What the call of this line comes to.
    fn answer(&mut self, line: &str, n: u64) -> Result<String> {
        match &mut self.talk {
            Talk::Peer(peer) => peer_call(self.rt.alloc(), peer, line, n),
            Talk::Pair(pair) => pair_call(self.rt.alloc(), pair, line, n),
            Talk::Nobody => slow_call(self.rt.alloc(), &mut self.node, line),
        }
    }

    // What is printed for a line that makes nothing.
    fn called(&mut self, line: &str, n: u64) -> Result<String> {
        let alloc = self.rt.alloc();
        let answer = self.answer(line.trim_start_matches("~"), n)?;
        if line.starts_with("~") || answer.is_empty() {
            return Ok(String::new(alloc));
        }
        Ok(format!(in alloc; "{line}: {answer}\n")?)
    }

    // What is printed for a line in which `N` is that number.
    fn played(&mut self, line: &str, n: u64) -> Result<String> {
        let alloc = self.rt.alloc();
        if line.starts_with("#") {
            return Ok(format!(in alloc; "{line}\n")?);
        }
        let words = words_of(alloc, line)?;
        if words.is_empty() || self.makes(line, words.as_slice())? {
            return Ok(String::new(alloc));
        }
        self.called(line, n).with_context(|| line)
    }

    // What is printed for lines in which `N` is that number.
    fn all(&mut self, lines: &[&str], n: u64) -> Result<String> {
        let mut text = String::new(self.rt.alloc());
        for line in lines {
            text.push_str(self.played(line, n)?.as_str())?;
        }
        Ok(text)
    }

    // Plays lines for a number, and prints what differs from what was printed last.
    fn play_for(&mut self, lines: &[&str], n: u64, last: &mut String) -> Result<()> {
        let text = self.all(lines, n)?;
        if text.as_str() != last.as_str() {
            println!(self.rt; "from {n} on:")?;
            print!(self.rt; "{text}")?;
            *last = text;
        }
        Ok(())
    }

    // Plays lines for so many numbers, from one on, in such steps, and modulo another one where there is one.
    fn each(&mut self, words: &[&str], lines: &[&str]) -> Result<()> {
        let (count, from) = (number(words, 1, 0)?, number(words, 2, 0)?);
        let (step, modulo) = (
            number(words, 3, 0)?,
            number(words, 4, 0).unwrap_or(u64::MAX),
        );
        let mut last = String::new(self.rt.alloc());
        for turn in 0..count {
            let n = turn.saturating_mul(step).saturating_add(from);
            self.play_for(lines, n.checked_rem(modulo).unwrap_or(n), &mut last)?;
        }
        println!(self.rt; "{count} played")?;
        Ok(())
    }

    /// Plays a line; `each` over what was prepared.
    pub fn play(&mut self, line: &str, prepared: &[&str]) -> Result<()> {
        let words = words_of(self.rt.alloc(), line)?;
        if word(words.as_slice(), 0) == "each" {
            println!(self.rt; "{line}")?;
            return self.each(words.as_slice(), prepared);
        }
        let text = self.played(line, 0)?;
        print!(self.rt; "{text}")?;
        Ok(())
    }
}
