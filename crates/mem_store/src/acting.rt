//! Acting on the sources of queued files.
ghost use Rattle.std.specs.Prelude.{◌≡◌, ◌<◌, ◌&&◌, [], true, Some, MatchOption, IfOk, vec_len, vec_capacity};
ghost use Rattle.ftn_addr.specs.Address.{Address, address, same_address};
ghost use Rattle.ftn_addr.specs.Key.{key_of};
ghost use Rattle.node_model.specs.Items.{Entry};
ghost use Rattle.node_model.specs.Lists.{Member};
ghost use Rattle.node_model.specs.Outside.{has_key, put_at, source_acted};
ghost use Rattle.node_model.specs.SendRows.{NextActed, leaves, waits_for_action};
ghost use Rattle.mem_store.specs.Least.{Least};
ghost use Rattle.mem_store.specs.Outsiders.{outside_of};

use crate::least::lesser;
use crate::outside::{place_of_path, put_file, remove_file};
use crate::{OutsideFile, QueuedFile};
use ftn_addr::{Action, Addr, Bytes, FileKey, NoMemory, is_same_address};
use std::alloc::Global;

fn leaves(action: Action) -> bool
    ensures { result ≡ leaves action }
{
    match action {
        Action::Leave => true,
        Action::Delete => false,
        Action::Cut => false,
    }
}

impl QueuedFile {
    // Whether it is for that address, and something is to be done with its source.
    fn is_waiting(&self, dest: &Addr) -> bool
        ensures { result ≡ (same_address (address dest.now) self.now.dest && waits_for_action self.now) }
    {
        is_same_address(dest, &self.dest) && !self.acted && !leaves(self.action)
    }

    /// An empty file in place of its source.
    pub fn empty_source(&self, alloc: Global) -> Result<OutsideFile, NoMemory>
        ensures path { IfOk result (λ file. file.path ≡ self.now.source) }
        ensures empty { IfOk result (λ file. file.file.bytes ≡ []) }
    {
        OutsideFile::new(alloc, &self.source, b"", self.key.time)
    }

    /// Does its action to its source, where that has the size and time of its key: the source is removed, or the empty
    /// file stands in its place. It takes no memory.
    pub fn act_on_source(&self, empty: OutsideFile, files: &mut Vec<OutsideFile>)
        requires path { empty.path ≡ self.now.source }
        requires empty { empty.file.bytes ≡ [] }
        requires room { vec_len files.old < vec_capacity files.old }
        ensures { outside_of files.new.items ≡ source_acted self.now empty.file.time (outside_of files.old.items) }
    {
        if !has_source(&self.source, &self.key, files.as_slice()) {
            return;
        }
        match self.action {
            Action::Leave => (),
            Action::Delete => remove_file(self.source.as_slice(), files),
            Action::Cut => put_file(empty, files),
        }
    }
}

// Whether a file with the size and time of that key stands under the path.
fn has_source(path: &Bytes, key: &FileKey, files: &[OutsideFile]) -> bool
    ensures { result ≡ has_key (key_of key.now) (outside_of files.now path.now.list) }
{
    match place_of_path(files, path.as_slice()) {
        Some(place) => files[place].has_key(key),
        None => false,
    }
}

/// The number of the file that is first to be acted on for an address.
pub fn next_action(queue: &[QueuedFile], dest: &Addr) -> Option<u32>
    ensures { MatchOption result ((e : Entry) → Member e queue.now → e.dest ≡ address dest.now → waits_for_action e ≡ true → ⊥) (λ number. NextActed (address dest.now) number queue.now) }
{
    least_waiting(queue, dest)
}

// The least number of those for an address that wait for their action.
fn least_waiting(queue: &[QueuedFile], dest: &Addr) -> Option<u32>
    ensures { Least (λ (e : Entry). same_address (address dest.now) e.dest && waits_for_action e) (λ (e : Entry). e.number) queue.now result }
{
    let mut least = None;
    for file in queue {
        let waits = file.is_waiting(dest);
        least = lesser(waits, file.number(), least);
    }
    least
}
