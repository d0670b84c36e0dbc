//! Files by key and address.
ghost use Rattle.std.specs.Prelude.{◌≡◌, ◌||◌, Bool, true, false, OnOk, IfOk, IfSome};
ghost use Rattle.ftn_addr.specs.Address.{Address, address};
ghost use Rattle.ftn_addr.specs.Files.{is_same};
ghost use Rattle.ftn_addr.specs.Key.{Key, key_of};
ghost use Rattle.file_index.specs.Filed.{has, Files};

use ftn_addr::{Addr, FileKey, NoMemory};
use std::alloc::Global;
use std::collections::{BTreeMap, BTreeSet};

/// The files of a list, by key and address in their order.
#[derive(Debug, Drop)]
pub struct FileIndex {
    alloc: Global,
    senders: BTreeMap<FileKey, BTreeSet<Addr>>,
    whole: bool,
}

impl FileIndex {
    /// The index of no file, which takes no memory.
    pub fn new(alloc: Global) -> FileIndex
        ensures { Files result (λ _ _. false) }
    {
        FileIndex {
            alloc,
            senders: BTreeMap::new(alloc),
            whole: true,
        }
    }

    /// Whether the file stands in the list; none where the index isn't whole.
    pub fn find(&self, from: &Addr, key: &FileKey) -> Option<bool>
        ensures { (p : Address → Key → Bool) → Files self.now p → IfSome result (λ found. found ≡ p (address from.now) (key_of key.now)) }
    {
        if self.whole {
            Some(self.has(from, key))
        } else {
            None
        }
    }

    fn has(&self, from: &Addr, key: &FileKey) -> bool
        ensures { result ≡ has self.now.senders.entries (address from.now) (key_of key.now) }
    {
        match self.senders.get(key) {
            Some(senders) => senders.contains(from),
            None => false,
        }
    }

    /// Notes one file more of the list. Where there is no memory for it, the index isn't whole any more.
    pub fn note(&mut self, from: &Addr, key: &FileKey)
        ensures { (p : Address → Key → Bool) → Files self.old p → Files self.new (λ a k. p a k || is_same a k (address from.now) (key_of key.now)) }
    {
        if self.whole {
            match self.put(from, key) {
                Ok(()) => (),
                Err(_) => self.whole = false,
            }
        }
    }

    fn put(&mut self, from: &Addr, key: &FileKey) -> Result<(), NoMemory>
        ensures noted { OnOk result ((a : Address) (k : Key) → has self.new.senders.entries a k ≡ has self.old.senders.entries a k || is_same a k (address from.now) (key_of key.now)) }
        ensures same { self.new.whole ≡ self.old.whole }
    {
        let from = from.copy(self.alloc)?;
        match self.senders.get_mut(key) {
            Some(senders) => {
                senders.insert(from)?;
            }
            None => {
                let mut senders = BTreeSet::new(self.alloc);
                senders.insert(from)?;
                self.senders.insert(key.copy(self.alloc)?, senders)?;
            }
        }
        Ok(())
    }
}
