//! The call that gives received files away.
ghost use Rattle.std.specs.Prelude.{◌≡◌, ◌==◌, ◌<◌, ◌&&◌, ℕ, Bool, not, [], ◌∷◌, ◌++◌, IfOk, None, OnOk, vec_capacity, vec_len};
ghost use Rattle.disk_model.specs.Causes.{HasCause};
ghost use Rattle.disk_model.specs.Changes.{Every, Stands};
ghost use Rattle.file_index.specs.Sets.{Kept};
ghost use Rattle.node_model.specs.Outside.{inbound_for, numbered_name, plain_name};
ghost use Rattle.node_model.specs.Stores.{Give_next, StoreKept, give_answer};
ghost use Rattle.node_store.specs.Gifts.{GivesAs};
ghost use Rattle.node_store.specs.Stored.{stand_of};

use crate::NodeStore;
use crate::lookups::receipt_of;
use crate::names::in_file;
use disk_model::{Giving, Name, Yard};
use file_index::NumberSet;
use ftn_addr::{Bytes, Failed, NoMemory};
use node_model::{Gave, StoreFault, numbered_name, plain_name};
use std::alloc::Global;

// The names under which a received file may be given.
#[derive(Drop)]
struct GiftNames {
    plain: Bytes,
    numbered: Bytes,
}

// The names of a received file, and room to note that it was given.
fn make_ready(
    alloc: Global,
    number: u32,
    name: &[u8],
    given: &mut Vec<u32>,
) -> Result<GiftNames, NoMemory>
    ensures same { given.new.items ≡ given.old.items }
    ensures room { OnOk result (vec_len given.new < vec_capacity given.new) }
    ensures plain { IfOk result (λ names. names.plain.list ≡ plain_name name.now) }
    ensures numbered { IfOk result (λ names. names.numbered.list ≡ numbered_name number name.now) }
{
    let plain = plain_name(alloc, name)?;
    let numbered = numbered_name(alloc, number, name)?;
    given.reserve(1)?;
    Ok(GiftNames { plain, numbered })
}

// The file of that receipt was given, or may have been, and is kept no more. There is room to note it.
fn note_given(number: u32, given: &mut Vec<u32>, kept: &mut NumberSet)
    requires { vec_len given.old < vec_capacity given.old }
    ensures given { given.new.items ≡ given.old.items ++ number ∷ [] }
    ensures kept { (p : ℕ → Bool) → Kept kept.old p → Kept kept.new (λ n. p n && not (n == number)) }
{
    match given.push(number) {
        Ok(()) => (),
        Err(_) => unreachable!(),
    }
    kept.remove(number);
}

// Into which folder a file goes that came in a secure session, or in another.
fn folder_for<'a>(secure: bool, inbound: &'a Bytes, nonsecure: &'a Bytes) -> &'a Bytes
    ensures { result.now.list ≡ inbound_for secure inbound.now.list nonsecure.now.list }
{
    if secure { inbound } else { nonsecure }
}

// Gives an own file into a folder, under the first of two names that is free.
fn give_as<D: Yard>(
    disk: &mut D,
    own: &Name,
    folder: &Bytes,
    first: &Bytes,
    second: &Bytes,
) -> Result<Giving, Failed>
    requires { Every (D.files disk.old) (Stands own.now 0) }
    ensures gives { GivesAs D.files D.moment D.images result own.now folder.now.list first.now.list second.now.list disk.old disk.new }
    ensures cause { HasCause (D.fault_count disk.old) (D.fault_count disk.new) result }
{
    match disk.give(own, folder, first) {
        Ok(Giving::Given) => Ok(Giving::Given),
        Ok(Giving::Taken) => disk.give(own, folder, second),
        Err(_) => Err(Failed),
    }
}

impl<D: Yard> NodeStore<D> {
    /// Gives the next received file that isn't given yet, in a round by receipts: it becomes an outside file of the
    /// folder `inbound` where its session was secure, else of `nonsecure`, under its name made plain, or where that is
    /// in use under that name behind the receipt's number. A request waits until it is answered.
    pub fn give_next(
        &mut self,
        alloc: Global,
        inbound: &Bytes,
        nonsecure: &Bytes,
    ) -> Result<Gave, StoreFault>
        requires { self.old.memory.broken ≡ None }
        ensures { StoreKept (stand_of D.tells D.content D.fault_count D.moment D.images self.old) (Give_next inbound.now.list nonsecure.now.list) (give_answer result) (stand_of D.tells D.content D.fault_count D.moment D.images self.new) }
    {
        let Some(number) = self.next_given() else {
            return Ok(Gave::Nothing);
        };
        let folded = self.books.folded();
        let item = receipt_of(number, folded.inbox_start(number), folded.inbox());
        let folder = folder_for(item.secure, inbound, nonsecure);
        let Ok(names) = make_ready(alloc, number, item.key.name.as_slice(), &mut self.given) else {
            return Err(StoreFault::NoMemory);
        };
        match give_as(
            &mut self.disk,
            &in_file(number),
            folder,
            &names.plain,
            &names.numbered,
        ) {
            Ok(Giving::Given) => {
                note_given(number, &mut self.given, &mut self.kept);
                self.last_given = number;
                Ok(Gave::Given(number))
            }
            Ok(Giving::Taken) => {
                self.last_given = number;
                Ok(Gave::Held(number))
            }
            Err(_) => {
                // It may have been given: the disk alone tells, when it is opened again.
                note_given(number, &mut self.given, &mut self.kept);
                self.broken = Some(self.disk.faults());
                Err(StoreFault::Disk)
            }
        }
    }
}
