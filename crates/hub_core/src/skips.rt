//! The entries that a session has skipped, found by their numbers.
ghost use Rattle.std.specs.Prelude.{◌≡◌, ◌∷◌, [], ℕ, OnOk, reverse};
ghost use Rattle.hub_core.specs.Skips.{HasRoom, NotesSkips, is_skipped};

use ftn_addr::NoMemory;
use std::alloc::Global;
use std::collections::BTreeMap;

/// The entries that a session has skipped, the last one last, and whether an entry is one of them, by its number. A
/// look-up takes no memory, and steps in proportion to the logarithm of the entries that were claimed.
#[derive(Drop)]
pub struct Skips {
    pub list: Vec<u32>,
    /// False stands for room, which was made at the claim.
    pub noted: BTreeMap<u32, bool>,
    ghost notes: { NotesSkips noted (reverse list.items) },
}

impl Skips {
    /// None is skipped. It takes no memory.
    pub fn new(alloc: Global) -> Skips
        ensures { result.list.items ≡ [] }
    {
        Skips {
            list: Vec::new(alloc),
            noted: BTreeMap::new(alloc),
        }
    }

    /// Whether an entry is skipped.
    pub fn has(&self, number: u32) -> bool
        ensures { result ≡ is_skipped (reverse self.now.list.items) number }
    {
        match self.noted.get(&number) {
            Some(is_skipped) => *is_skipped,
            None => false,
        }
    }

    /// Makes room for the note of an entry.
    pub fn make_room(&mut self, number: u32) -> Result<(), NoMemory>
        ensures same { self.new.list.items ≡ self.old.list.items }
        ensures room { OnOk result (HasRoom number self.new.noted self.new.list) }
        ensures kept { (n : ℕ) → HasRoom n self.old.noted self.old.list → HasRoom n self.new.noted self.new.list }
    {
        if !self.noted.contains_key(&number) {
            self.noted.insert(number, false)?;
        }
        self.list.reserve(1)?;
        Ok(())
    }

    /// Notes an entry that has room as skipped. It takes no memory.
    pub fn add(&mut self, number: u32)
        requires { HasRoom number self.old.noted self.old.list }
        ensures { reverse self.new.list.items ≡ number ∷ reverse self.old.list.items }
    {
        match self.noted.insert(number, true) {
            Ok(_) => {}
            Err(_) => unreachable!(),
        }
        match self.list.push(number) {
            Ok(()) => {}
            Err(_) => unreachable!(),
        }
    }
}
