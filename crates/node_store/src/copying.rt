//! An own file is copied to another, piece by piece.
ghost use Rattle.std.specs.Prelude.{◌≢◌, ◌+◌, ◌<◌, ◌≤◌, IfOk, OnOk};
ghost use Rattle.disk_model.specs.Causes.{HasCause};
ghost use Rattle.disk_model.specs.Changes.{Every, Follows, Only};
ghost use Rattle.disk_model.specs.Moments.{Leaves};
ghost use Rattle.node_store.specs.Copying.{HasFront, IsCopy};
ghost use Rattle.node_store.specs.Worlds.{HasLength};

use crate::reading::read_some;
use crate::readying::make_empty;
use disk_model::{Disk, Name};
use ftn_addr::Failed;

/// How many bytes are held at once.
const PIECE: usize = 16_384;

// Copies one piece from a place on, and says how long it is.
fn copy_piece<D: Disk>(
    disk: &mut D,
    from: &Name,
    to: &Name,
    size: u64,
    at: u64,
) -> Result<u64, Failed>
    requires inside { at < size }
    requires apart { from.now ≢ to.now }
    requires stands { Every (D.files disk.old) (HasLength from.now size) }
    requires begun { Every (D.files disk.old) (HasFront from.now to.now at) }
    ensures some { IfOk result (λ count. 0 < count) }
    ensures inside { IfOk result (λ count. at + count ≤ size) }
    ensures copied { IfOk result (λ count. Every (D.files disk.new) (HasFront from.now to.now (at + count))) }
    ensures read { Follows (Only to.now) (D.files disk.old) (D.files disk.new) }
    ensures stop { Leaves D.moment D.images (Only to.now) disk.old disk.new }
    ensures cause { HasCause (D.fault_count disk.old) (D.fault_count disk.new) result }
{
    let mut piece = [0u8; PIECE];
    let count = read_some(disk, from, size, at, &mut piece)?;
    disk.write_at(to, at, &piece[..count])?;
    Ok(count as u64)
}

/// Copies an own file of that size to another, which it makes where there is none.
pub(crate) fn copy_own<D: Disk>(
    disk: &mut D,
    from: &Name,
    to: &Name,
    size: u64,
) -> Result<(), Failed>
    requires apart { from.now ≢ to.now }
    requires stands { Every (D.files disk.old) (HasLength from.now size) }
    ensures copied { OnOk result (Follows (IsCopy from.now to.now) (D.files disk.old) (D.files disk.new)) }
    ensures read { Follows (Only to.now) (D.files disk.old) (D.files disk.new) }
    ensures stop { Leaves D.moment D.images (Only to.now) disk.old disk.new }
    ensures cause { HasCause (D.fault_count disk.old) (D.fault_count disk.new) result }
{
    make_empty(disk, to)?;
    let mut at = 0;
    while at < size {
        at += copy_piece(disk, from, to, size, at)?;
    }
    Ok(())
}
