//! Files that are queued.
ghost use Rattle.std.specs.Prelude.{◌≡◌, ◌==◌, ◌<◌, ◌≤◌, Some, None, IsSome, true, length, position};
ghost use Rattle.std.specs.List.{position_or_len};
ghost use Rattle.ftn_addr.specs.Address.{address};
ghost use Rattle.ftn_addr.specs.Files.{is_same};
ghost use Rattle.ftn_addr.specs.Key.{key_of};
ghost use Rattle.ftn_addr.specs.Limits.{IsKey};
ghost use Rattle.node_model.specs.Items.{Entry, Done, Live};
ghost use Rattle.node_model.specs.Lists.{first_that};
ghost use Rattle.node_model.specs.SendRows.{rank};
ghost use Rattle.node_model.specs.Stocks.{NextLive, is_live};
ghost use Rattle.mem_store.specs.Offers.{offers, is_behind, is_before};

use ftn_addr::{Action, Addr, Bytes, FileKey, is_same_address, is_same_key};
use node_model::{Flavour, LivePlace};
use std::marker::Model;

/// A queued file.
#[derive(Debug, Drop)]
pub struct QueuedFile {
    pub number: u32,
    /// For whom it is.
    pub dest: Addr,
    pub key: FileKey,
    pub flavour: Flavour,
    /// The outside file that it came from.
    pub source: Bytes,
    /// What is to be done with that.
    pub action: Action,
    /// Whether that was done.
    pub acted: bool,
    /// None once it is settled.
    pub content: Option<Bytes>,
}

impl Model for QueuedFile {
    ghost use Rattle.ftn_addr.specs.Address.{address};
    ghost use Rattle.ftn_addr.specs.Key.{key_of};
    ghost use Rattle.ftn_addr.specs.Limits.{IsKey};
    ghost use Rattle.node_model.specs.Items.{Entry};
    ghost use Rattle.mem_store.specs.Views.{body_of};

    ghost Value = { Entry };

    ghost invariant = { λ e. IsKey (key_of e.key) };

    ghost view = { λ e. record { number = e.number; dest = address e.dest; key = key_of e.key; flavour = e.flavour; source = e.source.list; action = e.action; acted = e.acted; body = body_of e.content } };
}

impl QueuedFile {
    ghost use Rattle.std.specs.Prelude.{IsTrue};
    ghost use Rattle.node_model.specs.Durable.{body_map};

    /// Whether it is live, with as many bytes as its key says.
    pub fn is_whole(&self) -> bool
        ensures { IsTrue result → body_map length self.now.body ≡ Live self.now.key.size }
    {
        match &self.content {
            Some(bytes) => bytes.len() as u64 == self.key.size,
            None => false,
        }
    }
}

impl QueuedFile {
    pub fn number(&self) -> u32
        ensures { result ≡ self.now.number }
    {
        self.number
    }

    /// Whether it is for that address and has that key.
    pub fn is_of(&self, dest: &Addr, key: &FileKey) -> bool
        ensures { result ≡ is_same (address dest.now) (key_of key.now) self.now.dest self.now.key }
    {
        is_same_address(dest, &self.dest) && is_same_key(key, &self.key)
    }

    pub fn key(&self) -> &FileKey
        ensures same { key_of result.now ≡ self.now.key }
        ensures limits { IsKey (key_of result.now) }
    {
        &self.key
    }

    /// Where it stands among those of its address.
    pub fn place(&self) -> LivePlace
        ensures { result ≡ (self.now.flavour, self.now.number) }
    {
        (self.flavour, self.number)
    }

    /// Its bytes, which it has until it is settled.
    pub fn content(&self) -> &[u8]
        requires { is_live self.now.body ≡ true }
        ensures { self.now.body ≡ Live result.now }
    {
        match &self.content {
            Some(bytes) => bytes.as_slice(),
            None => unreachable!(),
        }
    }

    /// Whether it is live, for that address, and behind that place.
    pub fn is_offered(&self, dest: &Addr, after: Option<LivePlace>) -> bool
        ensures { result ≡ offers (address dest.now) after self.now }
    {
        self.content.is_some()
            && is_same_address(dest, &self.dest)
            && is_behind(after, self.flavour, self.number)
    }

    /// It is settled, and loses its bytes.
    pub fn settle(&mut self)
        ensures { self.new ≡ record self.old { body = Done } }
    {
        self.content = None;
    }

    /// What was to be done with its source is done.
    pub fn act(&mut self)
        ensures { self.new ≡ record self.old { acted = true } }
    {
        self.acted = true;
    }
}

fn rank_of(flavour: Flavour) -> u8
    ensures { result ≡ rank flavour }
{
    match flavour {
        Flavour::Immediate => 0,
        Flavour::Crash => 1,
        Flavour::Direct => 2,
        Flavour::Normal => 3,
        Flavour::Hold => 4,
    }
}

// Whether a file stands behind that place.
fn is_behind(after: Option<LivePlace>, flavour: Flavour, number: u32) -> bool
    ensures { result ≡ is_behind after flavour number }
{
    match after {
        Some((last, at)) => {
            let (low, high) = (rank_of(last), rank_of(flavour));
            low < high || low == high && at < number
        }
        None => true,
    }
}

// Whether a file is before the best place so far.
fn is_before(place: LivePlace, best: Option<LivePlace>) -> bool
    ensures { result ≡ is_before place best }
{
    match best {
        Some((flavour, number)) => !is_behind(Some((flavour, number)), place.0, place.1),
        None => true,
    }
}

/// The first live entry for an address behind that place.
pub fn next_of(queue: &[QueuedFile], dest: &Addr, after: Option<LivePlace>) -> Option<LivePlace>
    ensures { NextLive (address dest.now) after queue.now result }
{
    let mut best = None;
    for file in queue {
        if file.is_offered(dest, after) && is_before(file.place(), best) {
            best = Some(file.place());
        }
    }
    best
}

/// Where the first entry with that number stands, if there is one.
pub fn position_of_entry(queue: &[QueuedFile], number: u32) -> Option<usize>
    ensures { result ≡ position (λ (e : Entry). e.number == number) queue.now }
{
    queue.iter().position(|file| file.number() == number)
}

/// Where the first entry with that number stands.
pub fn place_of_entry(queue: &[QueuedFile], number: u32) -> usize
    requires { IsSome (first_that (λ (e : Entry). e.number == number) queue.now) }
    ensures within { result < length queue.now }
    ensures first { result ≡ position_or_len (λ (e : Entry). e.number == number) queue.now }
{
    position_of_entry(queue, number).unwrap()
}

/// Where an entry of that address and key stands, if there is one.
pub fn place_queued(queue: &[QueuedFile], dest: &Addr, key: &FileKey) -> Option<usize>
    ensures { result ≡ position (λ (e : Entry). is_same (address dest.now) (key_of key.now) e.dest e.key) queue.now }
{
    queue.iter().position(|file| file.is_of(dest, key))
}
