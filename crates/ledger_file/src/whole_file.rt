//! A file with given bytes, durable.
ghost use Rattle.std.specs.Prelude.{◌≡◌, OnOk, Some};
ghost use Rattle.disk_model.specs.Causes.{HasCause};
ghost use Rattle.disk_model.specs.Changes.{Every, Follows, Only};
ghost use Rattle.disk_model.specs.Moments.{Now, Leaves};

use disk_model::{Disk, Name};
use ftn_addr::Failed;

/// Makes a file anew with these bytes, and makes it durable. At every moment a stop leaves the other files
/// as they were; of this one it says nothing until the answer is Ok.
pub fn put_file<D: Disk>(disk: &mut D, name: &Name, bytes: &[u8]) -> Result<(), Failed>
    ensures durable { OnOk result (Every (Now D.moment D.images disk.new) (λ w. w.own name.now ≡ Some bytes.now)) }
    ensures stop { Leaves D.moment D.images (Only name.now) disk.old disk.new }
    ensures read { Follows (Only name.now) (D.files disk.old) (D.files disk.new) }
    ensures cause { HasCause (D.fault_count disk.old) (D.fault_count disk.new) result }
{
    disk.create(name)?;
    disk.cut(name, 0)?;
    disk.write_at(name, 0, bytes)?;
    disk.sync(name)?;
    Ok(())
}
