//! What the contract of a disk gives to its callers, shown by a small one.
ghost use Rattle.std.specs.Prelude.{◌≡◌, length, OnOk};
ghost use Rattle.disk_model.specs.Causes.{HasCause};
ghost use Rattle.disk_model.specs.Changes.{Every, Follows, Stands, OnOwn, Rewrites};
ghost use Rattle.disk_model.specs.Moments.{Now, Leaves};
ghost use Rattle.disk_model.specs.Twice.{TornTwice, HoldsTwice, Became};

use crate::{Disk, Name};
use ftn_addr::Failed;

/// Bytes for a place in a file.
#[derive(Clone, Copy)]
pub struct Piece<'a> {
    pub at: u64,
    pub bytes: &'a [u8],
}

/// Writes two pieces into a file and makes it durable.
///
/// At every moment since it began a stop leaves the file as it was outside the two pieces, of a length
/// between the old and the new, and all else as it was. Once it answered Ok a stop leaves both pieces.
pub fn write_twice<D: Disk>(
    disk: &mut D,
    name: &Name,
    first: Piece<'_>,
    second: Piece<'_>,
) -> Result<(), Failed>
    requires first_inside { Every (D.files disk.old) (Stands name.now first.at) }
    requires second_inside { Every (D.files disk.old) (Stands name.now second.at) }
    ensures read { Follows (OnOwn (Rewrites name.now (TornTwice first.entry.at (length first.entry.bytes.now) second.entry.at (length second.entry.bytes.now)))) (D.files disk.old) (D.files disk.new) }
    ensures stop { Leaves D.moment D.images (OnOwn (Rewrites name.now (TornTwice first.entry.at (length first.entry.bytes.now) second.entry.at (length second.entry.bytes.now)))) disk.old disk.new }
    ensures durable { OnOk result (Follows (Became name.now (HoldsTwice first.entry.at first.entry.bytes.now second.entry.at second.entry.bytes.now)) (D.files disk.old) (Now D.moment D.images disk.new)) }
    ensures cause { HasCause (D.fault_count disk.old) (D.fault_count disk.new) result }
{
    disk.write_at(name, first.at, first.bytes)?;
    disk.write_at(name, second.at, second.bytes)?;
    disk.sync(name)
}
