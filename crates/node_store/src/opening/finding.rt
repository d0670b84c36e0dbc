//! What stands on a disk that is opened, one step after another.
ghost use Rattle.std.specs.Prelude.{◌≡◌, ◌⊎◌, true, IfErr, IfOk, OnOk};
ghost use Rattle.busy_marks.specs.Text.{mark_text};
ghost use Rattle.disk_model.specs.Changes.{Every, Follows};
ghost use Rattle.disk_model.specs.Moments.{Leaves, Now};
ghost use Rattle.ftn_addr.specs.Address.{address};
ghost use Rattle.node_store.specs.Aside.{SameAside};
ghost use Rattle.node_store.specs.Clearing.{ClearsMarks, HasNoNote, Restores};
ghost use Rattle.node_store.specs.Finding.{IsFound};
ghost use Rattle.node_store.specs.Keeping.{HasReason};
ghost use Rattle.node_store.specs.Opening.{IsReady, IsRefused, Recovers};
ghost use Rattle.node_store.specs.declared.opening.fault.StoreOpenFault.TheVariants.{Disk as DiskFailed, NoMemory as OutOfMemory};

use crate::books::Books;
use crate::opening::clearing::clear_notes;
use crate::opening::fault::StoreOpenFault;
use crate::opening::ledger::open_books;
use crate::opening::looking::look_through;
use crate::opening::tidying::{Tidied, tidy};
use crate::takes::StandingTakes;
use busy_marks::mark_text;
use disk_model::{Disk, Yard};
use ftn_addr::Addr;
use std::alloc::Global;

/// The books of a disk, the receipts whose files were given, the takes that stand, and how many strays were removed.
#[derive(Drop)]
pub(crate) struct Found {
    pub(crate) books: Books,
    pub(crate) given: Vec<u32>,
    pub(crate) takes: StandingTakes,
    pub(crate) removed: u32,
}

// Opens the ledger and folds it, looks its files through and makes them durable, and tidies the folder.
fn look_over<D: Disk>(alloc: Global, disk: &mut D, home: &Addr) -> Result<Found, StoreOpenFault>
    requires ready { D.tells ≡ true → Every (Now D.moment D.images disk.old) (IsReady (D.content disk.old)) }
    ensures found { IfOk result (λ x. IsFound D.files D.moment D.images D.tells D.content x.books x.given.items x.takes disk.old disk.new) }
    ensures refused { IfErr result (λ fault. (fault ≡ DiskFailed) ⊎ ((fault ≡ OutOfMemory) ⊎ (D.tells ≡ true → IsRefused fault (D.content disk.old)))) }
    ensures stop { D.tells ≡ true → Leaves D.moment D.images Restores disk.old disk.new }
    ensures read { Follows Restores (D.files disk.old) (D.files disk.new) }
    ensures reason { HasReason (D.fault_count disk.old) (D.fault_count disk.new) result }
{
    let books = match open_books(alloc, disk, home) {
        Ok(books) => books,
        Err(fault) => return Err(fault),
    };
    let given = match look_through(alloc, disk, &books) {
        Ok(given) => given,
        Err(fault) => return Err(fault),
    };
    match tidy(alloc, disk, &books) {
        Ok(Tidied { takes, removed }) => Ok(Found {
            books,
            given,
            takes,
            removed,
        }),
        Err(fault) => Err(fault),
    }
}

/// Finds what stands, makes it durable and tidies the folder; and takes away the marks that a stop of this mailer left.
pub(crate) fn find<D: Yard>(
    alloc: Global,
    disk: &mut D,
    home: &Addr,
) -> Result<Found, StoreOpenFault>
    requires ready { D.tells ≡ true → Every (Now D.moment D.images disk.old) (IsReady (D.content disk.old)) }
    ensures found { IfOk result (λ x. IsFound D.files D.moment D.images D.tells D.content x.books x.given.items x.takes disk.old disk.new) }
    ensures none { OnOk result (Every (D.files disk.new) HasNoNote) }
    ensures refused { IfErr result (λ fault. (fault ≡ DiskFailed) ⊎ ((fault ≡ OutOfMemory) ⊎ (D.tells ≡ true → IsRefused fault (D.content disk.old)))) }
    ensures stop { D.tells ≡ true → Leaves D.moment D.images Recovers disk.old disk.new }
    ensures read { Follows Recovers (D.files disk.old) (D.files disk.new) }
    ensures marks_stop { D.tells ≡ true → Leaves D.moment D.images (ClearsMarks (mark_text (address home.now))) disk.old disk.new }
    ensures marks_read { Follows (ClearsMarks (mark_text (address home.now))) (D.files disk.old) (D.files disk.new) }
    ensures aside_stop { D.tells ≡ true → Leaves D.moment D.images SameAside disk.old disk.new }
    ensures aside_read { Follows SameAside (D.files disk.old) (D.files disk.new) }
    ensures reason { HasReason (D.fault_count disk.old) (D.fault_count disk.new) result }
{
    let text = match mark_text(alloc, home) {
        Ok(text) => text,
        Err(_) => return Err(StoreOpenFault::NoMemory),
    };
    let found = match look_over(alloc, disk, home) {
        Ok(found) => found,
        Err(fault) => return Err(fault),
    };
    match clear_notes(alloc, disk, &text) {
        Ok(()) => Ok(found),
        Err(fault) => Err(fault),
    }
}
