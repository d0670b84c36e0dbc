//! The calls that ask the disk: those of the yard that the store passes on, and reads of files that were taken.
ghost use Rattle.std.specs.Prelude.{◌≡◌, ◌-◌, ◌≤◌, ℕ, List, IfOk, IsSome, None, drop, false, length, map, min, option_map, take, true};
ghost use Rattle.disk_model.specs.Causes.{HasCause};
ghost use Rattle.disk_model.specs.Changes.{Every, Same};
ghost use Rattle.disk_model.specs.Folders.{ListsFolder};
ghost use Rattle.disk_model.specs.Moments.{Leaves};
ghost use Rattle.node_model.specs.StoreStates.{IfTold};
ghost use Rattle.node_store.specs.Asking.{Asks, ListsOutside, stat_of};
ghost use Rattle.node_store.specs.Names.{take_number};
ghost use Rattle.node_store.specs.Stored.{stand_of};
ghost use Rattle.node_store.specs.Worlds.{bytes_of};

use crate::NodeStore;
use crate::reading::read_some;
use disk_model::{Disk, ListFault, Name, OutStat, Yard};
use ftn_addr::{Bytes, Failed};
use node_model::StoreFault;

// Reads an own file from a place on, as many bytes as fit; none where it doesn't stand.
fn read_own<D: Disk>(disk: &mut D, name: &Name, at: u64, out: &mut [u8]) -> Result<usize, Failed>
    ensures fits { IfOk result (λ count. count ≤ length out.old) }
    ensures length { IfOk result (λ count. Every (D.files disk.old) (λ w. count ≡ min (length out.old) (length (bytes_of (w.own name.now)) - at))) }
    ensures told { IfOk result (λ count. Every (D.files disk.old) (λ w. take count out.new ≡ take (length out.old) (drop at (bytes_of (w.own name.now))))) }
    ensures read { Every (D.files disk.new) (D.files disk.old) }
    ensures stop { Leaves D.moment D.images Same disk.old disk.new }
    ensures cause { HasCause (D.fault_count disk.old) (D.fault_count disk.new) result }
{
    match disk.stat(name)? {
        Some(size) => read_some(disk, name, size, at, out),
        None => Ok(0),
    }
}

impl<D: Yard> NodeStore<D> {
    /// The size and time of an outside file, or `None` where none stands under the path. It takes no memory.
    pub fn look(&mut self, path: &Bytes) -> Result<Option<OutStat>, StoreFault>
        requires { self.old.memory.broken ≡ None }
        ensures told { IfOk result (λ stat. IfTold (stand_of D.tells D.content D.fault_count D.moment D.images self.old).state.content (λ s. stat ≡ option_map stat_of (s.outside path.now.list))) }
        ensures asks { Asks false result (stand_of D.tells D.content D.fault_count D.moment D.images self.old) (stand_of D.tells D.content D.fault_count D.moment D.images self.new) }
        ensures takes { self.new.takes ≡ self.old.takes }
    {
        match self.disk.look(path) {
            Ok(stat) => Ok(stat),
            Err(_) => {
                self.broken = Some(self.disk.faults());
                Err(StoreFault::Disk)
            }
        }
    }

    /// The names of the outside files and folders that stand directly in a folder, in the order of their bytes. A folder that isn't
    /// there gives none.
    pub fn names(&mut self, folder: &Bytes) -> Result<Vec<Bytes>, StoreFault>
        requires { self.old.memory.broken ≡ None }
        ensures told { IfOk result (λ names. Every (D.files self.old.disk) (λ w. ListsFolder folder.now.list w.outside (map (λ name. name.list) names.items))) }
        ensures listed { IfOk result (λ names. IfTold (stand_of D.tells D.content D.fault_count D.moment D.images self.old).state.content (λ s. ListsOutside folder.now.list s.outside (map (λ name. name.list) names.items))) }
        ensures asks { Asks true result (stand_of D.tells D.content D.fault_count D.moment D.images self.old) (stand_of D.tells D.content D.fault_count D.moment D.images self.new) }
        ensures takes { self.new.takes ≡ self.old.takes }
    {
        match self.disk.names(folder) {
            Ok(names) => Ok(names),
            Err(ListFault::NoMemory) => Err(StoreFault::NoMemory),
            Err(ListFault::Failed) => {
                self.broken = Some(self.disk.faults());
                Err(StoreFault::Disk)
            }
        }
    }

    /// Reads the bytes of a file that was taken from a place on, as many as fit: none past its length, nor where it doesn't stand.
    /// It takes no memory.
    pub fn read_take(&mut self, own: &Name, at: u64, out: &mut [u8]) -> Result<usize, StoreFault>
        requires whole { self.old.memory.broken ≡ None }
        requires take { IsSome (take_number own.now) }
        ensures fits { IfOk result (λ count. count ≤ length out.old) }
        ensures length { IfOk result (λ count. IfTold (stand_of D.tells D.content D.fault_count D.moment D.images self.old).state.content (λ s. count ≡ min (length out.old) (length (bytes_of (s.takes own.now)) - at))) }
        ensures told { IfOk result (λ count. IfTold (stand_of D.tells D.content D.fault_count D.moment D.images self.old).state.content (λ s. take count out.new ≡ take (length out.old) (drop at (bytes_of (s.takes own.now))))) }
        ensures asks { Asks false result (stand_of D.tells D.content D.fault_count D.moment D.images self.old) (stand_of D.tells D.content D.fault_count D.moment D.images self.new) }
        ensures takes { self.new.takes ≡ self.old.takes }
    {
        match read_own(&mut self.disk, own, at, out) {
            Ok(count) => Ok(count),
            Err(_) => {
                self.broken = Some(self.disk.faults());
                Err(StoreFault::Disk)
            }
        }
    }
}
