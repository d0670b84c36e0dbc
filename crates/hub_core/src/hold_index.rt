//! Which seat's session holds which file of which sender, found by the sender and the key.
ghost use Rattle.std.specs.Prelude.{◌≡◌, ◌&&◌, true, cond, None, Some, OnOk, OnErr, is_some};
ghost use Rattle.ftn_addr.specs.Address.{Address, address};
ghost use Rattle.ftn_addr.specs.Files.{is_same};
ghost use Rattle.ftn_addr.specs.Key.{Key, key_of};
ghost use Rattle.hub_core.specs.Holders.{holder, holder_in, takes};
ghost use Rattle.hub_core.specs.Hubs.{sitting_of};
ghost use Rattle.hub_core.specs.Steps.{CallsStore, sits_on};

use crate::FileIn;
use crate::places::Open;
use ftn_addr::{Addr, FileKey, NoMemory};
use std::alloc::Global;
use std::collections::BTreeMap;

/// The seat of each held file, by its key and its sender. A look-up takes no memory, and steps in proportion to the
/// logarithm of the held files.
#[derive(Drop)]
pub struct HoldIndex {
    alloc: Global,
    seats: BTreeMap<FileKey, BTreeMap<Addr, u32>>,
}

impl HoldIndex {
    /// The index of no file, which takes no memory.
    pub fn new(alloc: Global) -> HoldIndex
        ensures { (from : Address) (key : Key) → holder result from key ≡ None }
    {
        HoldIndex {
            alloc,
            seats: BTreeMap::new(alloc),
        }
    }

    /// Whether a seat's session holds that file of that sender.
    pub fn has(&self, from: &Addr, key: &FileKey) -> bool
        ensures { result ≡ is_some (holder self.now (address from.now) (key_of key.now)) }
    {
        match self.seats.get(key) {
            Some(senders) => senders.contains_key(from),
            None => false,
        }
    }

    /// Notes that the session of a seat holds that file of that sender.
    pub fn note(&mut self, from: &Addr, key: &FileKey, seat: u32) -> Result<(), NoMemory>
        ensures noted { OnOk result ((a : Address) (k : Key) → holder self.new a k ≡ cond (is_same a k (address from.now) (key_of key.now)) (Some seat) (holder self.old a k)) }
        ensures kept { OnErr result ((a : Address) (k : Key) → holder self.new a k ≡ holder self.old a k) }
    {
        let from = from.copy(self.alloc)?;
        match self.seats.get_mut(key) {
            Some(senders) => {
                senders.insert(from, seat)?;
            }
            None => {
                let mut senders = BTreeMap::new(self.alloc);
                senders.insert(from, seat)?;
                self.seats.insert(key.copy(self.alloc)?, senders)?;
            }
        }
        Ok(())
    }

    /// Takes that file of that sender out, where it is there. It takes no memory.
    pub fn remove(&mut self, from: &Addr, key: &FileKey)
        ensures { (a : Address) (k : Key) → holder self.new a k ≡ cond (is_same a k (address from.now) (key_of key.now)) None (holder self.old a k) }
    {
        if remove_sender(&mut self.seats, from, key) {
            self.seats.remove(key);
        }
    }

    /// Takes out what a session holds. It takes no memory.
    pub fn release(&mut self, session: &Open)
        ensures { (a : Address) (k : Key) → holder self.new a k ≡ cond (sits_on a k (sitting_of session.now).first (sitting_of session.now).hold) None (holder self.old a k) }
    {
        if let Some(taken) = &session.hold {
            self.remove(&session.first, &taken.key);
        }
    }

    /// Notes a file of a sender where its answer makes the session of a seat hold it.
    pub fn take_up(
        &mut self,
        word: FileIn,
        from: &Addr,
        key: &FileKey,
        seat: u32,
    ) -> Result<(), NoMemory>
        ensures noted { OnOk result ((a : Address) (k : Key) → holder self.new a k ≡ cond (takes word && is_same a k (address from.now) (key_of key.now)) (Some seat) (holder self.old a k)) }
        ensures kept { OnErr result ((a : Address) (k : Key) → holder self.new a k ≡ holder self.old a k) }
        ensures asks { OnErr result (CallsStore word) }
    {
        match word {
            FileIn::Go => self.note(from, key, seat),
            FileIn::From(_) => self.note(from, key, seat),
            FileIn::Whole => Ok(()),
            FileIn::Have => Ok(()),
            FileIn::Refuse => Ok(()),
            FileIn::Elsewhere => Ok(()),
            FileIn::Late => Ok(()),
        }
    }

    /// Takes out what was so noted. It takes no memory.
    pub fn give_up(&mut self, word: FileIn, from: &Addr, key: &FileKey)
        ensures { (a : Address) (k : Key) → holder self.new a k ≡ cond (takes word && is_same a k (address from.now) (key_of key.now)) None (holder self.old a k) }
    {
        match word {
            FileIn::Go => self.remove(from, key),
            FileIn::From(_) => self.remove(from, key),
            FileIn::Whole => {}
            FileIn::Have => {}
            FileIn::Refuse => {}
            FileIn::Elsewhere => {}
            FileIn::Late => {}
        }
    }
}

// Takes a sender out from under a key, and says whether no sender is left there.
fn remove_sender(
    seats: &mut BTreeMap<FileKey, BTreeMap<Addr, u32>>,
    from: &Addr,
    key: &FileKey,
) -> bool
    ensures removed { (a : Address) (k : Key) → holder_in seats.new.entries a k ≡ cond (is_same a k (address from.now) (key_of key.now)) None (holder_in seats.old.entries a k) }
    ensures last { result ≡ true → (a : Address) → holder_in seats.new.entries a (key_of key.now) ≡ None }
{
    match seats.get_mut(key) {
        Some(senders) => {
            senders.remove(from);
            senders.is_empty()
        }
        None => false,
    }
}
