//! A node of a trial to which its files are queued.
ghost use Rattle.std.specs.Prelude.{◌≡◌, ◌+◌, ◌*◌, ◌≤◌, length, IfOk};
ghost use Rattle.ftn_addr.specs.Address.{address};
ghost use Rattle.ftn_addr.specs.Key.{key_of};
ghost use Rattle.ftn_addr.specs.Limits.{IsAddress, IsKey};
ghost use Rattle.node_trial.specs.Files.{bytes_in, files_from};

use crate::file::{Sender, TrialFile};
use crate::generator::Generator;
use crate::node::{TrialNode, open_store};
use crate::who::Who;
use ftn_addr::{Action, Addr, Bytes, FileKey, NoMemory};
use mem_disk::MemDisk;
use node_model::{Flavour, NewFile, StoreFault};
use node_store::NodeStore;
use std::alloc::Global;

/// A node to which files are queued, with its store open.
#[derive(Drop)]
pub struct Filling {
    who: Box<Who>,
    store: Box<NodeStore<MemDisk>>,
}

// Stages a file and queues it.
fn queue(
    alloc: Global,
    store: &mut NodeStore<MemDisk>,
    dest: Addr,
    key: FileKey,
    bytes: &[u8],
) -> Result<(), StoreFault>
    requires dest { IsAddress (address dest) }
    requires key { IsKey (key_of key) }
    requires size { (key_of key).size ≡ length bytes.now }
{
    if store.broken().is_some() {
        return Err(StoreFault::Disk);
    }
    store.numbers_are_drawn();
    let number = store.stage(bytes)?;
    let file = NewFile {
        number,
        dest,
        key,
        source: Bytes::new(alloc),
        action: Action::Leave,
        flavour: Flavour::Normal,
    };
    store.queue_all(alloc, None, None, &[file])?;
    Ok(())
}

impl Filling {
    /// A node over an empty disk.
    fn new(alloc: Global, number: u16, other: u16) -> Result<Filling, NoMemory>
        requires number { number ≤ 32767 }
        requires other { other ≤ 32767 }
    {
        let who = Who::new(alloc, number, other)?;
        let store = open_store(alloc, &who, MemDisk::new(alloc))?;
        Ok(Filling { who, store })
    }

    // Queues a file for the other node, unless the ledger has no place left for it. A store over a disk in memory refuses it for want
    // of memory alone besides.
    fn queue(&mut self, alloc: Global, file: TrialFile) -> Result<(), NoMemory>
        requires key { IsKey (key_of file.key) }
        requires size { file.key.size ≡ length file.bytes.list }
    {
        let dest = self.who.peer(alloc)?;
        let TrialFile {
            key,
            bytes,
            sender: _,
        } = file;
        match queue(alloc, &mut self.store, dest, key, bytes.as_slice()) {
            Ok(()) => Ok(()),
            Err(StoreFault::Full) => Ok(()),
            Err(_) => Err(NoMemory),
        }
    }

    // The node, once all files are queued: its store is opened again.
    fn into_node(self, alloc: Global) -> Result<TrialNode, NoMemory> {
        let Filling { who, store } = self;
        let disk = Box::into_inner(store).into_disk();
        let calls = disk.calls();
        TrialNode::stopped(alloc, who, disk, calls, 0)
    }
}

/// The two nodes of a trial with their files queued, and the sizes of these together.
#[derive(Drop)]
pub struct Filled {
    pub near: TrialNode,
    pub far: TrialNode,
    pub bytes: u64,
}

// Draws so many files, queues each at its sender, and tells their sizes together.
fn fill(
    alloc: Global,
    generator: &mut Generator,
    near: &mut Filling,
    far: &mut Filling,
    count: u32,
) -> Result<u64, NoMemory>
    ensures { IfOk result (λ bytes. bytes ≡ bytes_in (files_from count 1 generator.old)) }
{
    let mut total = 0;
    for index in 0..count {
        let file = generator.draw_file(alloc, index + 1)?;
        total += file.key.size;
        match file.sender {
            Sender::First => near.queue(alloc, file)?,
            Sender::Second => far.queue(alloc, file)?,
        }
    }
    Ok(total)
}

/// The first node `1:1/1@fidonet` and the second `1:1/2@fidonet`, with so many files queued.
pub(crate) fn fill_both(
    alloc: Global,
    generator: &mut Generator,
    count: u32,
) -> Result<Filled, NoMemory>
    ensures { IfOk result (λ filled. filled.bytes ≡ bytes_in (files_from count 1 generator.old)) }
{
    let mut near = Filling::new(alloc, 1, 2)?;
    let mut far = Filling::new(alloc, 2, 1)?;
    let bytes = fill(alloc, generator, &mut near, &mut far, count)?;
    Ok(Filled {
        near: near.into_node(alloc)?,
        far: far.into_node(alloc)?,
        bytes,
    })
}
