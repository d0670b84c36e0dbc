//! A node of a trial, while no session uses it.
ghost use Rattle.std.specs.Prelude.{◌≡◌, count_by, length, map, IfOk};
ghost use Rattle.disk_model.specs.Moments.{AtRest};
ghost use Rattle.ledger_rec.specs.Items.{Entry, entry};
ghost use Rattle.mem_disk.specs.MemoryDisk.{mem_files, mem_images, mem_moment};
ghost use Rattle.node_trial.specs.Parties.{FitsHub};

use crate::who::Who;
use ftn_addr::NoMemory;
use ledger_rec::QueueItem;
use mem_disk::MemDisk;
use node_store::{NodeStore, what_is_read_is_ready};
use std::alloc::Global;
use std::marker::Model;

/// A node that no session uses: who it is, and its store. Contracts see what the store's records leave.
#[derive(Drop)]
pub struct TrialNode {
    who: Box<Who>,
    store: Box<NodeStore<MemDisk>>,
}

impl Model for TrialNode {
    ghost use Rattle.ledger_rec.specs.Fold.{State};
    ghost use Rattle.node_trial.specs.Parties.{FitsHub};

    ghost Value = { State };

    ghost view = { λ n. n.store.value.memory.books.folding.state };

    ghost invariant = { λ n. FitsHub n.store.value };
}

/// The store of a node over a disk that rests. What a failing disk and an unreadable ledger would be answered is want of memory: a
/// disk in memory fails for that alone.
pub(crate) fn open_store(
    alloc: Global,
    who: &Who,
    disk: MemDisk,
) -> Result<Box<NodeStore<MemDisk>>, NoMemory>
    requires { AtRest mem_files mem_moment mem_images disk }
    ensures { IfOk result (λ store. FitsHub store.value) }
{
    what_is_read_is_ready();
    let store = match NodeStore::open(alloc, disk, who.home()) {
        Ok((store, _recovery)) => store,
        Err(_) => return Err(NoMemory),
    };
    store.opens_as_told();
    store.opens_soundly();
    Ok(Box::new(alloc, store)?)
}

fn count_live(queue: &[QueueItem]) -> usize
    ensures { result ≡ count_by (λ (e : Entry). e.live) (map entry queue.now) }
{
    queue.iter().filter(|item| item.live).count()
}

impl TrialNode {
    /// A node over a store that sessions have left.
    pub(crate) fn of(
        alloc: Global,
        who: Box<Who>,
        store: NodeStore<MemDisk>,
    ) -> Result<TrialNode, NoMemory>
        requires { FitsHub store }
    {
        let store = Box::new(alloc, store)?;
        Ok(TrialNode { who, store })
    }

    /// A node whose store is opened again, behind a stop of its disk behind so many calls.
    pub(crate) fn stopped(
        alloc: Global,
        who: Box<Who>,
        disk: MemDisk,
        calls: u64,
        pick: u32,
    ) -> Result<TrialNode, NoMemory> {
        let after = calls.min(disk.calls());
        let disk = match disk.stop(after, u64::from(pick)) {
            Ok(disk) => disk,
            Err(_) => return Err(NoMemory),
        };
        let store = open_store(alloc, &who, disk)?;
        Ok(TrialNode { who, store })
    }

    /// Who it is, and its store.
    pub(crate) fn into_parts(self) -> (Box<Who>, Box<NodeStore<MemDisk>>)
        ensures { FitsHub result.1.value }
    {
        (self.who, self.store)
    }

    /// How many queued files wait to be sent.
    pub(crate) fn live(&self) -> usize
        ensures { result ≡ count_by (λ (e : Entry). e.live) self.now.queue }
    {
        count_live(self.store.state().queue())
    }

    /// How many files were received.
    pub(crate) fn received(&self) -> usize
        ensures { result ≡ length self.now.inbox }
    {
        self.store.state().inbox().len()
    }
}
