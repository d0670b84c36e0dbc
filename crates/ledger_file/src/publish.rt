//! A block becomes durable behind a closed gate, and then the gate is opened.
ghost use Rattle.std.specs.Prelude.{◌+◌, ◌<◌, ◌^◌, length, OnOk};
ghost use Rattle.disk_model.specs.Causes.{HasCause};
ghost use Rattle.disk_model.specs.Changes.{Every, Follows, OnOwn, Only, Rewrites};
ghost use Rattle.disk_model.specs.Moments.{Now, Leaves};
ghost use Rattle.ledger_file.specs.Gate.{ShutAt, Published, Opened};

use crate::records::OPEN;
use disk_model::{Disk, Name};
use ftn_addr::Failed;

/// Writes a block behind the closed gate and opens it. At every moment a stop leaves the file's front as it
/// was, and the whole block wherever the gate is open.
pub(crate) fn publish<D: Disk>(
    disk: &mut D,
    name: &Name,
    gate: u64,
    block: &[u8],
) -> Result<(), Failed>
    requires room { gate + length block.now + 1 < 2 ^ 64 }
    requires shut { Every (Now D.moment D.images disk.old) (ShutAt name.now gate) }
    ensures opened { OnOk result (Follows (OnOwn (Rewrites name.now (Opened gate block.now))) (Now D.moment D.images disk.old) (Now D.moment D.images disk.new)) }
    ensures stop { Leaves D.moment D.images (OnOwn (Rewrites name.now (Published gate block.now))) disk.old disk.new }
    ensures read { Follows (Only name.now) (D.files disk.old) (D.files disk.new) }
    ensures cause { HasCause (D.fault_count disk.old) (D.fault_count disk.new) result }
{
    disk.write_at(name, gate + 1, block)?;
    // The block has to be on the disk before the gate is opened.
    disk.sync(name)?;
    disk.write_at(name, gate, &[OPEN])?;
    // And so has the open gate.
    disk.sync(name)?;
    Ok(())
}
