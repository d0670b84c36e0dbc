//! What queueing files together will write.
ghost use Rattle.std.specs.Prelude.{◌≡◌, ◌≤◌, [], ◌∷◌, ◌++◌, None, OnOk, IfOk, map, option_map};
ghost use Rattle.ftn_addr.specs.Address.{address};
ghost use Rattle.ftn_addr.specs.Files.{is_same};
ghost use Rattle.ftn_addr.specs.Key.{key_of};
ghost use Rattle.ledger_file.specs.Text.{lists};
ghost use Rattle.ledger_rec.specs.Batch.{answered_records, queue_records, taken_records};
ghost use Rattle.ledger_rec.specs.Fold.{new_entry};
ghost use Rattle.ledger_rec.specs.Items.{Entry, entry};
ghost use Rattle.ledger_rec.specs.Limits.{Fits, HasNumbers};
ghost use Rattle.ledger_rec.specs.Record.{Queue as Queue_record, new_file, record_of};
ghost use Rattle.ledger_rec.specs.Spelling.{AreRecords, spelling};
ghost use Rattle.node_model.specs.Lists.{Each};
ghost use Rattle.node_model.specs.StoreWords.{FitsQueue, entry_of, slot_of};
ghost use Rattle.node_store.specs.Logs.{action_number, flavour_number};
ghost use Rattle.node_store.specs.Planned.{HasFiles, fresh_in, fresh_with, new_text, queue_with, queued_in, slot_with, slots_in};

use file_index::FileIndex;
use ftn_addr::{Addr, Bytes, FileKey, NoMemory, is_same_address, is_same_key};
use ledger_rec::{Folded, NewFileRec, QueueItem, Record, write_record};
use node_model::{Action, Flavour, NewFile, Slot};
use std::alloc::Global;

/// How files are queued: their slots, the records of those that are new, and the payloads of these records.
#[derive(Debug, Drop)]
pub(crate) struct Plan {
    pub(crate) slots: Vec<Slot>,
    pub(crate) fresh: Vec<NewFileRec>,
    pub(crate) payloads: Vec<Bytes>,
}

fn number_of_flavour(flavour: Flavour) -> u8
    ensures { result ≡ flavour_number flavour }
{
    match flavour {
        Flavour::Immediate => 0,
        Flavour::Crash => 1,
        Flavour::Direct => 2,
        Flavour::Normal => 3,
        Flavour::Hold => 4,
    }
}

fn number_of_action(action: Action) -> u8
    ensures { result ≡ action_number action }
{
    match action {
        Action::Leave => 0,
        Action::Delete => 1,
        Action::Cut => 2,
    }
}

// The record of a file that is queued.
fn record_for(alloc: Global, file: &NewFile) -> Result<NewFileRec, NoMemory>
    ensures { IfOk result (λ rec. new_file rec ≡ new_text (entry_of file.now)) }
{
    Ok(NewFileRec {
        number: file.number,
        dest: file.dest.copy(alloc)?,
        key: file.key.copy(alloc)?,
        source: file.source.copy(alloc)?,
        action: number_of_action(file.action),
        flavour: number_of_flavour(file.flavour),
    })
}

// Writes the payload of a record behind the others.
fn write_payload(alloc: Global, rec: &Record, payloads: &mut Vec<Bytes>) -> Result<(), NoMemory>
    requires { Fits (record_of rec.now) }
    ensures numbers { OnOk result (HasNumbers (record_of rec.now)) }
    ensures payloads { OnOk result (lists payloads.new.items ≡ lists payloads.old.items ++ spelling (record_of rec.now) ∷ []) }
{
    let mut payload = Bytes::new(alloc);
    write_record(rec, &mut payload)?;
    payloads.push(payload)?;
    Ok(())
}

// Writes the payload of a file that is queued behind the others.
fn write_queued(alloc: Global, file: &NewFile, payloads: &mut Vec<Bytes>) -> Result<(), NoMemory>
    requires { FitsQueue (entry_of file.now) }
    ensures numbers { OnOk result (HasNumbers (Queue_record (new_text (entry_of file.now)))) }
    ensures payloads { OnOk result (lists payloads.new.items ≡ lists payloads.old.items ++ spelling (Queue_record (new_text (entry_of file.now))) ∷ []) }
{
    let rec = Record::Queue(record_for(alloc, file)?);
    write_payload(alloc, &rec, payloads)?;
    Ok(())
}

fn is_of(dest: &Addr, key: &FileKey, addr: &Addr, other: &FileKey) -> bool
    ensures { result ≡ is_same (address dest.now) (key_of key.now) (address addr.now) (key_of other.now) }
{
    is_same_address(dest, addr) && is_same_key(key, other)
}

// The number under which the queue has that address and key.
fn number_queued(file: &NewFile, queue: &[QueueItem]) -> Option<u32>
    ensures { result ≡ option_map (λ (e : Entry). e.number) (queued_in (address file.now.dest) (key_of file.now.key) (map entry queue.now)) }
{
    for item in queue {
        if is_of(&file.dest, &file.key, &item.dest, &item.key) {
            return Some(item.number);
        }
    }
    None
}

// The number under which the files that are new so far have that address and key.
fn number_fresh(file: &NewFile, fresh: &[NewFileRec]) -> Option<u32>
    ensures { result ≡ option_map (λ (e : Entry). e.number) (queued_in (address file.now.dest) (key_of file.now.key) (map new_entry (map new_file fresh.now))) }
{
    for item in fresh {
        if is_of(&file.dest, &file.key, &item.dest, &item.key) {
            return Some(item.number);
        }
    }
    None
}

// The number under which an address has that key already. A list is walked where it has, or where the index of the files that are
// new so far had no memory.
fn number_in(
    file: &NewFile,
    folded: &Folded,
    fresh: &[NewFileRec],
    index: &FileIndex,
) -> Option<u32>
    requires { HasFiles index.now (map new_file fresh.now) }
    ensures { result ≡ option_map (λ (e : Entry). e.number) (queued_in (address file.now.dest) (key_of file.now.key) (folded.now.state.queue ++ map new_entry (map new_file fresh.now))) }
{
    if folded.is_queued(&file.dest, &file.key) {
        return number_queued(file, folded.queue());
    }
    match index.find(&file.dest, &file.key) {
        Some(false) => None,
        Some(true) | None => number_fresh(file, fresh),
    }
}

impl Plan {
    // Plans a file that has no number yet. Where memory is wanted, the plan is of no use.
    fn add_new(&mut self, alloc: Global, file: &NewFile) -> Result<(), NoMemory>
        requires { FitsQueue (entry_of file.now) }
        ensures slots { OnOk result (map slot_of self.new.slots.items ≡ map slot_of self.old.slots.items ++ slot_with (entry_of file.now) None ∷ []) }
        ensures fresh { OnOk result (map new_file self.new.fresh.items ≡ map new_file self.old.fresh.items ++ new_text (entry_of file.now) ∷ []) }
        ensures payloads { OnOk result (lists self.new.payloads.items ≡ lists self.old.payloads.items ++ spelling (Queue_record (new_text (entry_of file.now))) ∷ []) }
        ensures numbers { OnOk result (HasNumbers (Queue_record (new_text (entry_of file.now)))) }
    {
        // A record that is written is whole, and what is folded later is the file's alone: each has its copy.
        write_queued(alloc, file, &mut self.payloads)?;
        self.fresh.push(record_for(alloc, file)?)?;
        self.slots.push(Slot::New(file.number))?;
        Ok(())
    }

    // Plans one file more, and notes it in the index of the files that are new. Where memory is wanted, the plan is of no use.
    fn add(
        &mut self,
        alloc: Global,
        file: &NewFile,
        folded: &Folded,
        index: &mut FileIndex,
    ) -> Result<(), NoMemory>
        requires fits { FitsQueue (entry_of file.now) }
        requires index { HasFiles index.old (map new_file self.old.fresh.items) }
        ensures index { OnOk result (HasFiles index.new (map new_file self.new.fresh.items)) }
        ensures slots { OnOk result (map slot_of self.new.slots.items ≡ map slot_of self.old.slots.items ++ slot_with (entry_of file.now) (queued_in (address file.now.dest) (key_of file.now.key) (folded.now.state.queue ++ map new_entry (map new_file self.old.fresh.items))) ∷ []) }
        ensures fresh { OnOk result (map new_file self.new.fresh.items ≡ map new_file self.old.fresh.items ++ fresh_with (entry_of file.now) (queued_in (address file.now.dest) (key_of file.now.key) (folded.now.state.queue ++ map new_entry (map new_file self.old.fresh.items)))) }
        ensures payloads { OnOk result (lists self.new.payloads.items ≡ lists self.old.payloads.items ++ map spelling (queue_records (fresh_with (entry_of file.now) (queued_in (address file.now.dest) (key_of file.now.key) (folded.now.state.queue ++ map new_entry (map new_file self.old.fresh.items)))))) }
        ensures numbers { OnOk result (AreRecords (queue_records (fresh_with (entry_of file.now) (queued_in (address file.now.dest) (key_of file.now.key) (folded.now.state.queue ++ map new_entry (map new_file self.old.fresh.items)))))) }
    {
        if let Some(number) = number_in(file, folded, self.fresh.as_slice(), index) {
            self.slots.push(Slot::Again(number))?;
            return Ok(());
        }
        self.add_new(alloc, file)?;
        index.note(&file.dest, &file.key);
        Ok(())
    }
}

// How these files are queued, one behind another.
fn plan_files(alloc: Global, files: &[NewFile], folded: &Folded) -> Result<Plan, NoMemory>
    requires { Each FitsQueue (map entry_of files.now) }
    ensures slots { IfOk result (λ plan. map slot_of plan.slots.items ≡ slots_in (map entry_of files.now) (folded.now.state.queue)) }
    ensures fresh { IfOk result (λ plan. map new_file plan.fresh.items ≡ fresh_in (map entry_of files.now) (folded.now.state.queue)) }
    ensures payloads { IfOk result (λ plan. lists plan.payloads.items ≡ map spelling (queue_records (map new_file plan.fresh.items))) }
    ensures numbers { IfOk result (λ plan. AreRecords (queue_records (map new_file plan.fresh.items))) }
{
    let mut plan = Plan {
        slots: Vec::new(alloc),
        fresh: Vec::new(alloc),
        payloads: Vec::new(alloc),
    };
    let mut index = FileIndex::new(alloc);
    for file in files {
        plan.add(alloc, file, folded, &mut index)?;
    }
    Ok(plan)
}

fn write_take(alloc: Global, take: Option<u32>, payloads: &mut Vec<Bytes>) -> Result<(), NoMemory>
    ensures numbers { OnOk result (AreRecords (taken_records take)) }
    ensures payloads { OnOk result (lists payloads.new.items ≡ lists payloads.old.items ++ map spelling (taken_records take)) }
{
    match take {
        Some(take) => write_payload(alloc, &Record::Taken(take), payloads),
        None => Ok(()),
    }
}

fn write_answer(
    alloc: Global,
    answered: Option<u32>,
    payloads: &mut Vec<Bytes>,
) -> Result<(), NoMemory>
    ensures numbers { OnOk result (AreRecords (answered_records answered)) }
    ensures payloads { OnOk result (lists payloads.new.items ≡ lists payloads.old.items ++ map spelling (answered_records answered)) }
{
    match answered {
        Some(receipt) => write_payload(alloc, &Record::Answered(receipt), payloads),
        None => Ok(()),
    }
}

/// How these files are queued, one behind another, with the payloads of all records of the batch.
pub(crate) fn plan_batch(
    alloc: Global,
    take: Option<u32>,
    answered: Option<u32>,
    files: &[NewFile],
    folded: &Folded,
) -> Result<Plan, NoMemory>
    requires { Each FitsQueue (map entry_of files.now) }
    ensures slots { IfOk result (λ plan. map slot_of plan.slots.items ≡ slots_in (map entry_of files.now) (folded.now.state.queue)) }
    ensures fresh { IfOk result (λ plan. map new_file plan.fresh.items ≡ fresh_in (map entry_of files.now) (folded.now.state.queue)) }
    ensures payloads { IfOk result (λ plan. lists plan.payloads.items ≡ map spelling (queue_records (map new_file plan.fresh.items) ++ taken_records take ++ answered_records answered)) }
    ensures numbers { IfOk result (λ plan. AreRecords (queue_records (map new_file plan.fresh.items) ++ taken_records take ++ answered_records answered)) }
{
    let mut plan = plan_files(alloc, files, folded)?;
    write_take(alloc, take, &mut plan.payloads)?;
    write_answer(alloc, answered, &mut plan.payloads)?;
    Ok(plan)
}
