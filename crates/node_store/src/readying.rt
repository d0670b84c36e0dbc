//! The file of a part that begins.
ghost use Rattle.std.specs.Prelude.{◌≡◌, OnOk, Some};
ghost use Rattle.disk_model.specs.Causes.{HasCause};
ghost use Rattle.disk_model.specs.Changes.{Every, Follows, Stands};
ghost use Rattle.disk_model.specs.Moments.{Leaves};
ghost use Rattle.node_model.specs.declared.store.PartAt.{PartAt};
ghost use Rattle.node_store.specs.Beginnings.{Readies, len_of};
ghost use Rattle.node_store.specs.Worlds.{HasLength};

use disk_model::{Disk, Made, Name};
use ftn_addr::Failed;
use node_model::PartAt;

/// Makes an own file empty, which it makes where there is none.
pub(crate) fn make_empty<D: Disk>(disk: &mut D, name: &Name) -> Result<(), Failed>
    ensures ready { OnOk result (Every (D.files disk.new) (HasLength name.now 0)) }
    ensures read { Follows (Readies name.now 0) (D.files disk.old) (D.files disk.new) }
    ensures stop { Leaves D.moment D.images (Readies name.now 0) disk.old disk.new }
    ensures cause { HasCause (D.fault_count disk.old) (D.fault_count disk.new) result }
{
    match disk.create(name)? {
        Made::New => Ok(()),
        Made::Exists => disk.cut(name, 0),
    }
}

// Leaves so many bytes of an own file.
fn cut_to<D: Disk>(disk: &mut D, name: &Name, len: u64) -> Result<(), Failed>
    requires { Every (D.files disk.old) (Stands name.now len) }
    ensures ready { OnOk result (Every (D.files disk.new) (HasLength name.now len)) }
    ensures read { Follows (Readies name.now len) (D.files disk.old) (D.files disk.new) }
    ensures stop { Leaves D.moment D.images (Readies name.now len) disk.old disk.new }
    ensures cause { HasCause (D.fault_count disk.old) (D.fault_count disk.new) result }
{
    disk.cut(name, len)
}

/// Makes the file of a part ready, which begins with what its mark has.
pub(crate) fn make_ready<D: Disk>(
    disk: &mut D,
    name: &Name,
    mark: Option<PartAt>,
) -> Result<(), Failed>
    requires { (m : PartAt) → mark ≡ Some m → Every (D.files disk.old) (Stands name.now m.len) }
    ensures ready { OnOk result (Every (D.files disk.new) (HasLength name.now (len_of mark))) }
    ensures read { Follows (Readies name.now (len_of mark)) (D.files disk.old) (D.files disk.new) }
    ensures stop { Leaves D.moment D.images (Readies name.now (len_of mark)) disk.old disk.new }
    ensures cause { HasCause (D.fault_count disk.old) (D.fault_count disk.new) result }
{
    match mark {
        Some(mark) => cut_to(disk, name, mark.len),
        None => make_empty(disk, name),
    }
}
