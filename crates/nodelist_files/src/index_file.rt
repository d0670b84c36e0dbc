//! The index of the own folder.
ghost use Rattle.std.specs.Prelude.{◌≡◌, ◌≤◌, option_map, IsErrOf, OnOk};
ghost use Rattle.disk_model.specs.Changes.{Every, Same};
ghost use Rattle.disk_model.specs.Moments.{Leaves};
ghost use Rattle.ftn_addr.specs.Address.{address};
ghost use Rattle.ftn_addr.specs.Counts.{Increased};
ghost use Rattle.ftn_addr.specs.Outcomes.{Gives, GivesUnless};
ghost use Rattle.nodelist_comp.specs.Views.{listed};
ghost use Rattle.nodelist_files.specs.Files.{index_name};
ghost use Rattle.nodelist_files.specs.IndexFile.{MayFail, direct_of, index_at, opened};

use crate::IndexFileFault;
use crate::list_files::index_file;
use crate::reading::read_whole;
use disk_model::Disk;
use ftn_addr::Addr;
use nodelist_comp::Listed;
use nodelist_find::{Index, IndexFault, Route};
use std::alloc::Global;

/// The most bytes of an index: 12, and 265 for each of 65,536 nodes with a host of 255 bytes.
const MOST_BYTES: u64 = 17_367_052;

// The index that these bytes are.
fn opened(alloc: Global, bytes: &[u8]) -> Result<Index, IndexFileFault>
    ensures { Gives IndexFileFault.NoMemory (λ index. index) result (opened bytes.now) }
{
    match Index::open(alloc, bytes) {
        Ok(index) => Ok(index),
        Err(IndexFault::Bad(_)) => Err(IndexFileFault::Bad),
        Err(IndexFault::NoMemory) => Err(IndexFileFault::NoMemory),
    }
}

/// Reads the index of the own folder, and nothing is written. It is None where there is none. A file with more bytes than an
/// index can have isn't read.
pub fn read_index<D: Disk>(alloc: Global, disk: &mut D) -> Result<Option<Index>, IndexFileFault>
    ensures answer { Every (D.files disk.old) (λ w. GivesUnless MayFail (λ index. index) result (index_at (w.own index_name))) }
    ensures disk { IsErrOf result IndexFileFault.Disk → Increased (D.fault_count disk.old) (D.fault_count disk.new) }
    ensures faults { D.fault_count disk.old ≤ D.fault_count disk.new }
    ensures calm { OnOk result (D.fault_count disk.new ≡ D.fault_count disk.old) }
    ensures bad { IsErrOf result IndexFileFault.Bad → D.fault_count disk.new ≡ D.fault_count disk.old }
    ensures stop { Leaves D.moment D.images Same disk.old disk.new }
    ensures read { Every (D.files disk.new) (D.files disk.old) }
{
    let name = index_file();
    let Some(len) = disk.stat(&name)? else {
        return Ok(None);
    };
    if len > MOST_BYTES {
        return Err(IndexFileFault::Bad);
    }
    let bytes = read_whole(alloc, disk, &name, len)?;
    match opened(alloc, &bytes) {
        Ok(index) => Ok(Some(index)),
        Err(fault) => Err(fault),
    }
}

/// The node of an address, where it is reached by its own host: there its host is to be called, at its port. It takes no memory.
pub fn direct_node<'a>(index: &'a Index, addr: &Addr) -> Option<&'a Listed>
    ensures { option_map (λ node. listed node.now) result ≡ direct_of index.now (address addr.now) }
{
    match index.route(addr) {
        Route::Direct(i) => Some(index.node(i)),
        Route::ViaHost(_) => None,
        Route::Down => None,
        Route::Unknown => None,
    }
}
