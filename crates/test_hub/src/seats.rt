//! Two seats of a hub over a store in memory.
ghost use Rattle.std.specs.Prelude.{◌≡◌, ◌<◌, IfOk, IsTrue, length};
ghost use Rattle.mem_store.specs.ListStates.{stand_of};
ghost use Rattle.hub_core.specs.Hubs.{IsReady, hub_state, settings_of};
ghost use Rattle.hub_core.specs.Opening.{IsWhole, no_seats};
ghost use Rattle.test_hub.specs.Fitting.{FitsHub};

use crate::words::{key, node, quoted, said, unmet};
use anyhow::{Result, bail};
use ftn_addr::{Bytes, NoMemory};
use hub_core::{Desk, DeskFault, Hub, HubConf, HubDesk, Offer};
use mem_store::ListStore;
use node_model::Role;
use std::alloc::Global;
use std::marker::Model;
use test_script::{bytes, number, word, words_from};

/// The seats of a hub, at one of which its calls are made.
#[derive(Drop)]
pub struct Seats {
    desk: HubDesk<ListStore>,
}

// What contracts see of them is the seat at which calls are made.
impl Model for Seats {
    ghost use Rattle.std.specs.Prelude.{ℕ};
    ghost use Rattle.mem_store.specs.ListStates.{stand_of};
    ghost use Rattle.hub_core.specs.Hubs.{IsReady, hub_state};

    ghost Value = { ℕ };

    ghost view = { λ s. s.desk.seat };

    ghost invariant = { λ s. IsReady (stand_of s.desk.hub.store) (hub_state s.desk.hub.seats) s.desk.seat };
}

/// The settings of these words: how many sessions may answer, above which size files are refused, and how names end that are.
pub fn conf(alloc: Global, words: &[&str]) -> Result<HubConf> {
    let max_servers = word(words, 1).parse::<u16>()?;
    let refuse_over = number(words, 2)?;
    Ok(HubConf {
        max_servers,
        refuse_names: all_bytes(alloc, words_from(words, 3))?,
        refuse_over,
    })
}

fn all_bytes(alloc: Global, words: &[&str]) -> Result<Vec<Bytes>, NoMemory> {
    let mut all = Vec::new(alloc);
    for word in words {
        all.push(bytes(alloc, word)?)?;
    }
    Ok(all)
}

// The second seat of a hub over that store.
fn desk_over(alloc: Global, conf: HubConf, store: ListStore) -> Result<HubDesk<ListStore>, NoMemory>
    requires { IsWhole (stand_of store) (no_seats (settings_of conf)) }
    ensures { IfOk result (λ desk. IsReady (stand_of desk.hub.store) (hub_state desk.hub.seats) desk.seat) }
{
    let mut hub = Hub::new(alloc, store, conf);
    let _first = hub.seat()?;
    let seat = hub.seat()?;
    Ok(HubDesk { hub, seat })
}

// Whether that seat was given: it is a lower one, or has a session.
fn is_given(desk: &HubDesk<ListStore>, seat: u32) -> bool
    requires { IsReady (stand_of desk.now.hub.store) (hub_state desk.now.hub.seats) desk.now.seat }
    ensures { IsTrue result → seat < length (hub_state desk.now.hub.seats).chairs }
{
    if seat <= desk.seat {
        return true;
    }
    match desk.hub.session(seat) {
        Some(_) => true,
        None => false,
    }
}

fn role_of(word: &str) -> Result<Role> {
    Ok(match word {
        "Calls" => Role::Calls,
        "Answers" => Role::Answers,
        _ => bail!("no such role"),
    })
}

impl Seats {
    /// At the second seat of a hub over that store.
    pub fn over(alloc: Global, conf: HubConf, store: ListStore) -> Result<Box<Seats>>
        requires { FitsHub store }
    {
        let desk = desk_over(alloc, conf, store)?;
        Ok(Box::new(alloc, Seats { desk })?)
    }

    // Turns to another seat, where that is a lower one, or has a session.
    fn turn(&mut self, alloc: Global, words: &[&str]) -> Result<String> {
        let seat = word(words, 1).parse::<u32>()?;
        if !is_given(&self.desk, seat) {
            return unmet(alloc);
        }
        self.desk.seat = seat;
        Ok(String::new(alloc))
    }

    // Begins a session of one node, which calls.
    fn begin(&mut self, alloc: Global, words: &[&str]) -> Result<String> {
        if self.desk.is_open() {
            return unmet(alloc);
        }
        let peers = [node(alloc, words, 1)?];
        let begun = self
            .desk
            .begin(alloc, Role::Answers, &peers, false, 1_000_000_000);
        said(alloc, begun)
    }

    // Begins a secure session with a peer that is called, and has two addresses.
    fn begin_call(&mut self, alloc: Global, words: &[&str]) -> Result<String> {
        if self.desk.is_open() {
            return unmet(alloc);
        }
        let peers = [node(alloc, words, 1)?, node(alloc, words, 2)?];
        let begun = self
            .desk
            .begin(alloc, Role::Calls, &peers, true, 1_000_000_000);
        said(alloc, begun)
    }

    // The peer offers a file from a place.
    fn file(&mut self, alloc: Global, words: &[&str]) -> Result<String> {
        if !self.desk.is_open() {
            return unmet(alloc);
        }
        let key = key(alloc, words, 1, 2)?;
        let answer = self.desk.file_in(alloc, &key, number(words, 3)?);
        said(alloc, answer)
    }

    fn data(&mut self, alloc: Global, words: &[&str]) -> Result<String> {
        let data = bytes(alloc, word(words, 1))?;
        if !self.desk.fits(data.len() as u64) {
            return unmet(alloc);
        }
        let answer = self.desk.data_in(data.as_slice());
        said(alloc, answer)
    }

    // The number of the next file that the peer is offered; none where the conditions aren't met.
    fn offer(&mut self, alloc: Global) -> Option<Result<Option<u32>, DeskFault>> {
        if !self.desk.is_open() || !self.desk.is_free() {
            return None;
        }
        Some(match self.desk.offer(alloc) {
            Ok(Offer::File(number, _key)) => Ok(Some(number)),
            Ok(Offer::Nothing) => Ok(None),
            Err(fault) => Err(fault),
        })
    }

    // Reads what is offered, from a place on; none where the conditions aren't met.
    fn read_into(&mut self, at: u64, out: &mut [u8]) -> Option<Result<usize, DeskFault>> {
        if !self.desk.is_open() || !self.desk.has_claim() {
            return None;
        }
        Some(self.desk.read(at, out))
    }

    // At most so many bytes of what is offered, and no more than eight.
    fn read(&mut self, alloc: Global, words: &[&str]) -> Result<String> {
        let (at, most) = (number(words, 1)?, word(words, 2).parse::<usize>()?);
        let mut buffer = [0u8; 8];
        let Some(out) = buffer.get_mut(..most) else {
            bail!("at most eight bytes are read")
        };
        match self.read_into(at, out) {
            Some(Ok(count)) => quoted(alloc, out.get(..count).unwrap_or(b"")),
            Some(Err(fault)) => said(alloc, Err::<(), DeskFault>(fault)),
            None => unmet(alloc),
        }
    }

    fn got(&mut self, alloc: Global) -> Result<String> {
        if !self.desk.is_open() || !self.desk.has_claim() {
            return unmet(alloc);
        }
        let answer = self.desk.got();
        said(alloc, answer)
    }

    fn skip(&mut self, alloc: Global) -> Result<String> {
        if !self.desk.is_open() || !self.desk.has_claim() {
            return unmet(alloc);
        }
        self.desk.skip();
        Ok(String::from_str(alloc, "skipped")?)
    }

    fn next(&mut self, alloc: Global) -> Result<String> {
        match self.offer(alloc) {
            Some(offered) => said(alloc, offered),
            None => unmet(alloc),
        }
    }

    // Whether the entry of that number is offered next.
    fn offers(&mut self, alloc: Global, words: &[&str]) -> Result<String> {
        let number = word(words, 1).parse::<u32>()?;
        let offered = self.offer(alloc);
        said(alloc, offered == Some(Ok(Some(number))))
    }

    fn knock(&mut self, alloc: Global, words: &[&str]) -> Result<String> {
        let role = role_of(word(words, 1))?;
        let answer = self.desk.knock(role);
        said(alloc, answer)
    }

    fn leave(&mut self, alloc: Global) -> Result<String> {
        let answer = self.desk.leave();
        said(alloc, answer)
    }

    // Makes the call of these words by which the peer gets files.
    fn send(&mut self, alloc: Global, words: &[&str]) -> Result<String> {
        match word(words, 0) {
            "next" => self.next(alloc),
            "offers" => self.offers(alloc, words),
            "read" => self.read(alloc, words),
            "got" => self.got(alloc),
            "skip" => self.skip(alloc),
            _ => no_such_call(),
        }
    }

    /// What the call of these words answers.
    pub fn play(&mut self, alloc: Global, words: &[&str]) -> Result<String> {
        match word(words, 0) {
            "seat" => self.turn(alloc, words),
            "knock" => self.knock(alloc, words),
            "begin" if words.len() < 3 => self.begin(alloc, words),
            "begin" => self.begin_call(alloc, words),
            "leave" => self.leave(alloc),
            "file" => self.file(alloc, words),
            "data" => self.data(alloc, words),
            _ => self.send(alloc, words),
        }
    }
}

fn no_such_call() -> Result<String> {
    bail!("no such call of a seat")
}

/// The hub's store, once its sessions are over.
pub fn into_store(seats: Box<Seats>) -> ListStore {
    let Seats { desk } = Box::into_inner(seats);
    let HubDesk { hub, seat: _ } = desk;
    hub.into_store()
}
