//! List and index take their places.
ghost use Rattle.std.specs.Prelude.{OnOk};
ghost use Rattle.disk_model.specs.Causes.{HasCause};
ghost use Rattle.disk_model.specs.Changes.{Every, Follows, IsFree, Only, Stands};
ghost use Rattle.disk_model.specs.Moments.{Now, Leaves};
ghost use Rattle.nodelist_files.specs.Compiling.{OnLists};
ghost use Rattle.nodelist_files.specs.Files.{new_name};
ghost use Rattle.nodelist_files.specs.Staging.{Replaced, Replaces};

use crate::list_files::{index_file, list_file, new_file};
use disk_model::Disk;
use ftn_addr::Failed;
use ledger_file::put_file;

/// What was made takes the list's place, and then these bytes take the index's.
pub(crate) fn replace<D: Disk>(disk: &mut D, index: &[u8]) -> Result<(), Failed>
    requires { Every (Now D.moment D.images disk.old) (Stands new_name 0) }
    ensures replaced { OnOk result (Follows (Replaced index.now) (Now D.moment D.images disk.old) (Now D.moment D.images disk.new)) }
    ensures stop { Leaves D.moment D.images (OnLists (Replaces index.now)) disk.old disk.new }
    ensures read { Follows (OnLists (Replaces index.now)) (D.files disk.old) (D.files disk.new) }
    ensures cause { HasCause (D.fault_count disk.old) (D.fault_count disk.new) result }
{
    let new = new_file();
    disk.rename(&new, &list_file())?;
    put_file(disk, &new, index)?;
    disk.rename(&new, &index_file())
}

/// Takes away what was being made.
pub(crate) fn clear<D: Disk>(disk: &mut D) -> Result<(), Failed>
    ensures free { OnOk result (Every (D.files disk.new) (IsFree new_name)) }
    ensures stop { Leaves D.moment D.images (Only new_name) disk.old disk.new }
    ensures read { Follows (Only new_name) (D.files disk.old) (D.files disk.new) }
    ensures cause { HasCause (D.fault_count disk.old) (D.fault_count disk.new) result }
{
    let new = new_file();
    match disk.stat(&new)? {
        Some(_) => disk.remove(&new),
        None => Ok(()),
    }
}
