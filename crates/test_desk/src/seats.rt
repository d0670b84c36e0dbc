//! Two seats of a hub over the store of a disk, and the desk of the one at which calls are made.
ghost use Rattle.std.specs.Prelude.{◌≡◌, ◌<◌, IfOk, IsTrue, length, map, true};
ghost use Rattle.std.specs.List.{All};
ghost use Rattle.disk_model.specs.Changes.{Every};
ghost use Rattle.disk_model.specs.Moments.{Now};
ghost use Rattle.ftn_addr.specs.Address.{address};
ghost use Rattle.ftn_addr.specs.Key.{key_of};
ghost use Rattle.ftn_addr.specs.Limits.{IsAddress, IsKey};
ghost use Rattle.hub_core.specs.Hubs.{IsReady, hub_state};
ghost use Rattle.hub_core.specs.Opening.{IsWhole, no_seats};
ghost use Rattle.node_model.specs.Node.{Settings};
ghost use Rattle.node_store.specs.Opening.{IsReady as IsReadyDisk};
ghost use Rattle.node_store.specs.Stored.{stand_of};

use anyhow::{Result, bail};
use disk_model::Yard;
use ftn_addr::{Addr, Bytes, FileKey, MAX_ADDRESS_NUMBER, MAX_NAME};
use hub_core::{Desk, DeskFault, Hub, HubConf, HubDesk, Offer};
use node_model::{Role, Store};
use node_store::NodeStore;
use outbound_desk::{DeskOutbound, LineDesk};
use outbound_store::TakingStore;
use std::alloc::Global;
use std::fmt::Debug;
use std::marker::Model;
use test_script::{bytes, number, word, words_from};

/// The seats of a hub over the store of a disk, at one of which its calls are made.
#[derive(Drop)]
pub struct Seats<D: Yard>
where
    TakingStore<D>: Store,
{
    desk: LineDesk<TakingStore<D>>,
}

// What contracts see of them is the seat at which calls are made; its desk is ready.
impl<D: Yard> Model for Seats<D>
where
    TakingStore<D>: Store,
{
    ghost use Rattle.std.specs.Prelude.{ℕ};
    ghost use Rattle.ftn_addr.specs.Address.{address};
    ghost use Rattle.hub_core.specs.Hubs.{hub_state};
    ghost use Rattle.node_store.specs.Stored.{stand_of};
    ghost use Rattle.outbound_desk.specs.Lines.{IsDeskReady};

    ghost Value = { ℕ };

    ghost view = { λ s. s.desk.desk.seat };

    ghost invariant = { λ s. IsDeskReady (stand_of D.tells D.content D.fault_count D.moment D.images s.desk.desk.hub.store.store) (hub_state s.desk.desk.hub.seats) s.desk.desk.seat (address s.desk.outbound.home) };
}

// The node of 2:5020 with that number.
fn addr(alloc: Global, node: u16) -> Result<Addr>
    ensures { IfOk result (λ addr. IsAddress (address addr)) }
{
    if node > MAX_ADDRESS_NUMBER {
        bail!("no such node")
    }
    Ok(Addr {
        zone: 2,
        net: 5020,
        node,
        point: 0,
        domain: Bytes::from_slice(alloc, b"fidonet")?,
    })
}

fn outbound(alloc: Global) -> Result<DeskOutbound>
    ensures { IfOk result (λ outbound. IsAddress (address outbound.home)) }
{
    Ok(DeskOutbound {
        home: addr(alloc, 1042)?,
        base: Bytes::from_slice(alloc, b"out")?,
        zone: 2,
        folders: Vec::new(alloc),
    })
}

// Two sessions may answer.
fn conf(alloc: Global) -> HubConf {
    HubConf {
        max_servers: 2,
        refuse_names: Vec::new(alloc),
        refuse_over: 1_000_000,
    }
}

// The second of two seats of a hub over that store.
fn seated<D: Yard + Drop>(alloc: Global, store: NodeStore<D>) -> Result<HubDesk<TakingStore<D>>>
    requires { (settings : Settings) → IsWhole (stand_of D.tells D.content D.fault_count D.moment D.images store) (no_seats settings) }
    ensures { IfOk result (λ desk. IsReady (stand_of D.tells D.content D.fault_count D.moment D.images desk.hub.store.store) (hub_state desk.hub.seats) desk.seat) }
{
    let mut hub = Hub::new(alloc, TakingStore::new(store), conf(alloc));
    let _first = hub.seat()?;
    let seat = hub.seat()?;
    Ok(HubDesk { hub, seat })
}

// The store of that disk.
fn store_of<D: Yard + Drop>(alloc: Global, disk: D) -> Result<NodeStore<D>>
    requires ready { D.tells ≡ true → Every (Now D.moment D.images disk) (IsReadyDisk (D.content disk)) }
    ensures { IfOk result (λ store. (settings : Settings) → IsWhole (stand_of D.tells D.content D.fault_count D.moment D.images store) (no_seats settings)) }
{
    let home = addr(alloc, 1042)?;
    match NodeStore::open(alloc, disk, &home) {
        Ok((store, _recovery)) => {
            store.opens_as_told();
            store.opens_soundly();
            Ok(store)
        }
        Err(_) => bail!("the store isn't opened"),
    }
}

/// The second of two seats of a hub over the store of that disk.
pub fn open<D: Yard + Drop>(alloc: Global, disk: D) -> Result<Box<Seats<D>>>
    requires ready { D.tells ≡ true → Every (Now D.moment D.images disk) (IsReadyDisk (D.content disk)) }
{
    let store = store_of(alloc, disk)?;
    let outbound = outbound(alloc)?;
    let desk = LineDesk {
        desk: seated(alloc, store)?,
        outbound,
        alloc,
    };
    Ok(Box::new(alloc, Seats { desk })?)
}

// Whether that seat was given: it is a lower one, or has a session.
fn is_given<D: Yard>(desk: &LineDesk<TakingStore<D>>, seat: u32) -> bool
    requires { desk.now.desk.seat < length (hub_state desk.now.desk.hub.seats).chairs }
    ensures { IsTrue result → seat < length (hub_state desk.now.desk.hub.seats).chairs }
{
    if seat <= desk.desk.seat {
        return true;
    }
    match desk.desk.hub.session(seat) {
        Some(_) => true,
        None => false,
    }
}

// The addresses that the words name.
fn peers(alloc: Global, words: &[&str]) -> Result<Vec<Addr>>
    ensures { IfOk result (λ peers. All IsAddress (map address peers.items)) }
{
    let mut peers = Vec::new(alloc);
    for word in words {
        peers.push(addr(alloc, word.parse::<u16>()?)?)?;
    }
    Ok(peers)
}

fn key(alloc: Global, words: &[&str]) -> Result<FileKey>
    ensures { IfOk result (λ key. IsKey (key_of key)) }
{
    let size = number(words, 2)?;
    let name = bytes(alloc, word(words, 1))?;
    if name.is_empty() || name.len() > MAX_NAME {
        bail!("no such name")
    }
    Ok(FileKey {
        name,
        size,
        time: 1_000_000_000,
    })
}

// What is printed of a call that wasn't made, since its conditions aren't met.
fn unmet(alloc: Global) -> Result<String> {
    Ok(String::from_str(alloc, "condition not met")?)
}

fn said<T: Debug + Drop>(alloc: Global, answer: T) -> Result<String> {
    Ok(format!(in alloc; "{answer:?}")?)
}

impl<D: Yard + Drop> Seats<D> {
    // Turns to another seat, where that is a lower one, or has a session.
    fn turn(&mut self, alloc: Global, words: &[&str]) -> Result<String> {
        let seat = word(words, 1).parse::<u32>()?;
        if !is_given(&self.desk, seat) {
            return unmet(alloc);
        }
        self.desk.desk.seat = seat;
        Ok(String::new(alloc))
    }

    fn begin(&mut self, alloc: Global, words: &[&str]) -> Result<String> {
        let peers = peers(alloc, words_from(words, 1))?;
        if peers.is_empty() || self.desk.desk.is_open() {
            return unmet(alloc);
        }
        let begun = self
            .desk
            .begin(alloc, Role::Answers, &peers, false, 1_000_000_000);
        said(alloc, begun)
    }

    // The number of the next file that the peer is offered; none where the conditions aren't met.
    fn offered(&mut self, alloc: Global) -> Option<Result<Option<u32>, DeskFault>> {
        if !self.desk.desk.is_open() || !self.desk.desk.is_free() {
            return None;
        }
        Some(match self.desk.offer(alloc) {
            Ok(Offer::File(number, _key)) => Ok(Some(number)),
            Ok(Offer::Nothing) => Ok(None),
            Err(fault) => Err(fault),
        })
    }

    fn next(&mut self, alloc: Global) -> Result<String> {
        match self.offered(alloc) {
            Some(offered) => said(alloc, offered),
            None => unmet(alloc),
        }
    }

    fn got(&mut self, alloc: Global) -> Result<String> {
        if !self.desk.desk.is_open() || !self.desk.desk.has_claim() {
            return unmet(alloc);
        }
        let answer = self.desk.got();
        said(alloc, answer)
    }

    fn skip(&mut self, alloc: Global) -> Result<String> {
        if !self.desk.desk.is_open() || !self.desk.desk.has_claim() {
            return unmet(alloc);
        }
        self.desk.skip();
        Ok(String::from_str(alloc, "skipped")?)
    }

    fn file(&mut self, alloc: Global, words: &[&str]) -> Result<String> {
        if !self.desk.desk.is_open() {
            return unmet(alloc);
        }
        let key = key(alloc, words)?;
        let answer = self.desk.file_in(alloc, &key, 0);
        said(alloc, answer)
    }

    fn data(&mut self, alloc: Global, words: &[&str]) -> Result<String> {
        let data = bytes(alloc, word(words, 1))?;
        if !self.desk.desk.fits(data.len() as u64) {
            return unmet(alloc);
        }
        let answer = self.desk.data_in(data.as_slice());
        said(alloc, answer)
    }

    fn leave(&mut self, alloc: Global) -> Result<String> {
        let answer = self.desk.leave();
        said(alloc, answer)
    }

    /// What the call of these words answers.
    pub fn play(&mut self, alloc: Global, words: &[&str]) -> Result<String> {
        match word(words, 0) {
            "seat" => self.turn(alloc, words),
            "begin" => self.begin(alloc, words),
            "next" => self.next(alloc),
            "got" => self.got(alloc),
            "skip" => self.skip(alloc),
            "file" => self.file(alloc, words),
            "data" => self.data(alloc, words),
            "leave" => self.leave(alloc),
            _ => no_such_call(),
        }
    }
}

fn no_such_call() -> Result<String> {
    bail!("no such call of a seat")
}
