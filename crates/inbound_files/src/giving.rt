//! One round of giving.
ghost use Rattle.std.specs.Prelude.{◌≡◌, None};
ghost use Rattle.inbound_files.specs.Giving.{GivesFiles, KeepsReceived};

use ftn_addr::Bytes;
use node_model::{Gave, Store, StoreFault};
use std::alloc::Global;

/// Gives received files of the store to the folder `inbound`, or to `nonsecure` where their session wasn't secure: one call of
/// the store for each of so many files. A file whose names are both in use there stays.
///
/// What is received stays received, at each stop meanwhile too.
///
/// # Errors
/// `Disk`, after which the store is broken and has to be opened again, or `NoMemory`. What was given before stays given, and the
/// rest isn't lost: it is given in a later round.
pub fn give_files<S: Store>(
    alloc: Global,
    store: &mut S,
    inbound: &Bytes,
    nonsecure: &Bytes,
    files: u32,
) -> Result<(), StoreFault>
    requires whole { (S.stand store.old).state.counts.broken ≡ None }
    ensures gives { GivesFiles S.stand inbound.now.list nonsecure.now.list files store.old result store.new }
    ensures keeps { KeepsReceived (S.stand store.old) (S.stand store.new) }
{
    for _ in 0..files {
        match store.give_next(alloc, inbound, nonsecure)? {
            Gave::Given(_) | Gave::Held(_) => {}
            Gave::Nothing => return Ok(()),
        }
    }
    Ok(())
}
