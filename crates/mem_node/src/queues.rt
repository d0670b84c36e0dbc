//! A store that has files to send.
ghost use Rattle.std.specs.Prelude.{◌≡◌, ◌≤◌, length, IfOk};
ghost use Rattle.ftn_addr.specs.Address.{address};
ghost use Rattle.ftn_addr.specs.Key.{key_of};
ghost use Rattle.ftn_addr.specs.Limits.{IsAddress, IsKey};
ghost use Rattle.node_store.specs.Finding.{IsNewMemory};

use crate::resting::{Resting, reopened};
use crate::store::{addr, opened};
use ftn_addr::{Action, Addr, Bytes, Failed, FileKey};
use mem_disk::MemDisk;
use node_model::{Flavour, NewFile, Slot, StoreFault};
use node_store::NodeStore;
use std::alloc::Global;
use std::test::Fail;

/// The most bytes of a name, and of a file.
const MOST_NAME: usize = 200;

const MOST_SIZE: usize = 2_147_483_647;

// The key of a file of that name with these bytes.
fn key(alloc: Global, name: &[u8], bytes: &[u8]) -> Result<FileKey, Fail>
    ensures { IfOk result (λ key. IsKey (key_of key) × ((key_of key).size ≡ length bytes.now)) }
{
    if name.is_empty() || MOST_NAME < name.len() || MOST_SIZE < bytes.len() {
        return Err(Failed.into());
    }
    Ok(FileKey {
        name: Bytes::from_slice(alloc, name)?,
        size: bytes.len() as u64,
        time: 1_000_000_000,
    })
}

// Stages and queues a file in a store that was just opened.
fn queue(
    alloc: Global,
    store: &mut NodeStore<MemDisk>,
    dest: Addr,
    key: FileKey,
    bytes: &[u8],
) -> Result<Option<Slot>, StoreFault>
    requires new { IsNewMemory store.old.memory }
    requires dest { IsAddress (address dest) }
    requires key { IsKey (key_of key) }
    requires size { (key_of key).size ≡ length bytes.now }
{
    store.opens_soundly();
    let number = store.stage(bytes)?;
    let file = NewFile {
        number,
        dest,
        key,
        source: Bytes::new(alloc),
        action: Action::Leave,
        flavour: Flavour::Normal,
    };
    let slots = store.queue_all(alloc, None, None, &[file])?;
    Ok(slots.as_slice().first().copied())
}

/// A disk with a file of that name and these bytes more in its queue, for that node of 2:5047, and how it was queued.
pub fn with_queued(
    alloc: Global,
    disk: Resting,
    node: u16,
    name: &[u8],
    bytes: &[u8],
) -> Result<(Slot, Resting), Fail>
    requires { node ≤ 32767 }
{
    let dest = addr(alloc, 2, 5047, node, 0)?;
    let key = key(alloc, name, bytes)?;
    let mut store = opened(alloc, disk)?;
    let Ok(Some(slot)) = queue(alloc, &mut store, dest, key, bytes) else {
        return Err(Failed.into());
    };
    Ok((slot, reopened(Box::into_inner(store).into_disk())?))
}
