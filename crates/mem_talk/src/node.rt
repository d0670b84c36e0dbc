//! A node of the tests, while no session uses it.
ghost use Rattle.std.specs.Prelude.{◌≡◌, ◌<◌, ◌≤◌, ◌^◌, ◌∷◌, [], ◌==◌, ℕ, List, nat_lt, None, IfOk, IsTrue, position};
ghost use Rattle.std.specs.List.{list_all};
ghost use Rattle.ftn_addr.specs.Address.{address as address_of};
ghost use Rattle.ftn_addr.specs.Key.{key_of};
ghost use Rattle.ftn_addr.specs.Limits.{IsAddress, IsKey};
ghost use Rattle.node_model.specs.Items.{Entry};
ghost use Rattle.node_model.specs.Node.{Settings};
ghost use Rattle.node_model.specs.Stocks.{StagedOf};
ghost use Rattle.node_model.specs.StoreWords.{FitsQueue, IsNewBatch, entry_of};
ghost use Rattle.mem_store.specs.ListStates.{stand_of};
ghost use Rattle.hub_core.specs.Opening.{IsWhole, no_seats};

use crate::offered::{Offered, address};
use crate::who::Who;
use ftn_addr::{Action, Addr, Bytes, NoMemory};
use mem_store::{ListStore, QueuedFile, StagedFile};
use node_model::{Flavour, NewFile, Slot, Store, StoreFault};
use std::alloc::Global;
use std::marker::Model;
use std::mem;

/// A node that no session uses: who it is, and what it keeps.
#[derive(Drop)]
pub struct Node {
    pub(crate) who: Box<Who>,
    pub(crate) store: ListStore,
}

impl Model for Node {
    ghost use Rattle.node_model.specs.Node.{Settings};
    ghost use Rattle.mem_store.specs.ListStates.{ListState, stand_of};
    ghost use Rattle.hub_core.specs.Opening.{IsWhole, no_seats};

    ghost Value = { ListState };

    ghost view = { λ n. n.store };

    ghost invariant = { λ n. (settings : Settings) → IsWhole (stand_of n.store) (no_seats settings) };
}

impl Node {
    /// A node with nothing in it, which refuses nothing: `2:5020/NUMBER@fidonet`.
    pub fn new(alloc: Global, number: u16) -> Result<Node, NoMemory> {
        Ok(Node {
            who: Who::new(alloc, number)?,
            store: ListStore::new(alloc),
        })
    }

    /// Such a node that refuses files whose names end so.
    pub fn refusing(alloc: Global, number: u16, end: &[u8]) -> Result<Node, NoMemory> {
        let mut node = Node::new(alloc, number)?;
        node.who.refuse(Bytes::from_slice(alloc, end)?)?;
        Ok(node)
    }

    /// Such a node that refuses files above that size.
    pub fn refusing_above(alloc: Global, number: u16, largest: u64) -> Result<Node, NoMemory> {
        let mut node = Node::new(alloc, number)?;
        node.who.refuse_over(largest);
        Ok(node)
    }

    /// Such a node that has that password for another one; an empty one is none.
    pub fn knowing(
        alloc: Global,
        number: u16,
        other: u16,
        password: &[u8],
    ) -> Result<Node, NoMemory> {
        let mut node = Node::new(alloc, number)?;
        node.who.know(alloc, other, password)?;
        Ok(node)
    }

    /// Such a node whose sessions end once they have taken and written so many bytes.
    pub fn ending_at(alloc: Global, number: u16, limit: u64) -> Result<Node, NoMemory>
        requires some { 0 < limit }
        requires fits { limit ≤ 2 ^ 62 }
    {
        let mut node = Node::new(alloc, number)?;
        node.who.end_at(limit);
        Ok(node)
    }

    /// It has that address instead, and no other settings.
    pub fn rename(&mut self, alloc: Global, number: u16) -> Result<(), NoMemory> {
        self.who = Who::new(alloc, number)?;
        Ok(())
    }

    /// What it keeps.
    pub fn store(&self) -> &ListStore {
        &self.store
    }

    /// Its first address.
    pub fn home(&self) -> &Addr {
        self.who.home()
    }

    /// Queues these files more, for the node of that number. Where that fails, it has lost what it kept.
    ///
    /// # Errors
    /// `Read`: the store is broken, or has no number left for a file.
    pub fn queue(&mut self, alloc: Global, dest: u16, files: &[Offered]) -> Result<(), StoreFault> {
        for file in files {
            self.queue_one(alloc, dest, *file)?;
        }
        Ok(())
    }

    fn queue_one(&mut self, alloc: Global, dest: u16, file: Offered) -> Result<(), StoreFault> {
        let dest = address(alloc, dest)?;
        let store = self.take(alloc);
        self.store = queue(alloc, store, dest, file)?;
        Ok(())
    }

    // Gives itself away, and is a blank node until it is given back.
    pub(crate) fn lend(&mut self, alloc: Global) -> Result<Node, NoMemory> {
        let blank = Node::new(alloc, 0)?;
        Ok(mem::replace(self, blank))
    }

    // Takes what it keeps, and leaves it nothing.
    fn take(&mut self, alloc: Global) -> ListStore
        ensures { (settings : Settings) → IsWhole (stand_of result) (no_seats settings) }
    {
        mem::replace(&mut self.store, ListStore::new(alloc))
    }
}

// Whether all of these have lesser numbers.
fn is_above(queue: &[QueuedFile], number: u32) -> bool
    ensures { result ≡ list_all (λ (e : Entry). nat_lt e.number number) queue.now }
{
    queue.iter().all(|entry| entry.number() < number)
}

// Where the first staged file with that number stands, if there is one.
fn place_staged(staged: &[StagedFile], number: u32) -> Option<usize>
    ensures { result ≡ position (λ (s : StagedOf (List ℕ)). s.number == number) staged.now }
{
    staged.iter().position(|file| file.number() == number)
}

// Whether a staged file may be queued alone.
fn is_batch(store: &ListStore, file: &NewFile) -> bool
    requires { FitsQueue (entry_of file.now) }
    ensures { IsTrue result → IsNewBatch None None (entry_of file.now ∷ []) (stand_of store.now).state }
{
    let staged = store.staged();
    let Some(place) = place_staged(staged, file.number) else {
        return false;
    };
    if staged[place].content().len() as u64 != file.key.size {
        return false;
    }
    is_above(store.entries(), file.number)
}

// Stages a file and queues it.
fn queue(
    alloc: Global,
    store: ListStore,
    dest: Addr,
    file: Offered,
) -> Result<ListStore, StoreFault>
    requires dest_is { IsAddress (address_of dest) }
    requires fits { (settings : Settings) → IsWhole (stand_of store) (no_seats settings) }
    ensures { IfOk result (λ store. (settings : Settings) → IsWhole (stand_of store) (no_seats settings)) }
{
    let mut store = store;
    let key = file.key(alloc)?;
    let bytes = file.content(alloc)?;
    if store.broken().is_some() {
        return Err(StoreFault::Read);
    }
    let number = store.stage(alloc, bytes.as_slice())?;
    let file = NewFile {
        number,
        dest,
        key,
        source: Bytes::new(alloc),
        action: Action::Leave,
        flavour: Flavour::Crash,
    };
    if store.broken().is_some() {
        return Err(StoreFault::Read);
    }
    let fits = is_batch(&store, &file);
    if !fits {
        return Err(StoreFault::Read);
    }
    let files = [file];
    store.queue_all(alloc, None, None, &files)?;
    Ok(store)
}
