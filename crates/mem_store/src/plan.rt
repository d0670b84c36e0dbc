//! What queueing files together will do.
ghost use Rattle.std.specs.Prelude.{◌≡◌, ◌==◌, ◌<◌, [], ◌∷◌, ◌++◌, ℕ, List, map, option_map, IfOk, OnOk, vec_len, vec_capacity};
ghost use Rattle.std.specs.List.{list_any};
ghost use Rattle.node_model.specs.declared.store.NewFile.{NewFile};
ghost use Rattle.ftn_addr.specs.Address.{address};
ghost use Rattle.ftn_addr.specs.Key.{key_of};
ghost use Rattle.ftn_addr.specs.Limits.{IsKey};
ghost use Rattle.node_model.specs.Items.{Entry, Receipt};
ghost use Rattle.node_model.specs.Durable.{all_answered, answered_receipt};
ghost use Rattle.node_model.specs.Lists.{Each, without};
ghost use Rattle.node_model.specs.Node.{Queue_record};
ghost use Rattle.node_model.specs.Rows.{all_by, by};
ghost use Rattle.node_model.specs.SendRows.{taken_records, answered_records};
ghost use Rattle.node_model.specs.Stocks.{NewEntry, StagedOf, entry_records, entry_with, is_listed, queue_each, queue_staged, queue_unless, queued_as, slot_for, slots_of, staged_in};
ghost use Rattle.node_model.specs.Stores.{with_take};
ghost use Rattle.node_model.specs.StoreWords.{entry_of, slot_of};
ghost use Rattle.mem_store.specs.Orders.{OneEach};

use crate::lists::{add, put};
use crate::log_record::{LogEntry, LogRecord};
use crate::queued::place_queued;
use crate::received::position_of_receipt;
use crate::staged::place_staged;
use crate::{QueuedFile, Received, StagedFile};
use ftn_addr::{Bytes, NoMemory};
use node_model::{NewFile, Slot};
use std::alloc::Global;

/// How files are queued: their slots, the entries of those that are new, and the records.
#[derive(Debug, Drop)]
pub struct Plan {
    pub slots: Vec<Slot>,
    pub fresh: Vec<QueuedFile>,
    pub records: Vec<LogEntry>,
}

impl Plan {
    // Queues one file more. Where memory is wanted, the plan is of no use.
    fn add(
        &mut self,
        alloc: Global,
        seat: u32,
        file: &NewFile,
        queue: &[QueuedFile],
        staged: &[StagedFile],
    ) -> Result<(), NoMemory>
        requires { IsKey (key_of file.now.key) }
        ensures slots { OnOk result (map slot_of self.new.slots.items ≡ map slot_of self.old.slots.items ++ slot_for (entry_of file.now) (queued_as (address file.now.dest) (key_of file.now.key) (queue.now ++ self.old.fresh.items)) ∷ []) }
        ensures fresh { OnOk result (queue.now ++ self.new.fresh.items ≡ queue_unless (entry_of file.now) (queued_as (address file.now.dest) (key_of file.now.key) (queue.now ++ self.old.fresh.items)) (staged_in file.now.number staged.now) (queue.now ++ self.old.fresh.items)) }
        ensures records { OnOk result (self.new.records.items ≡ self.old.records.items ++ all_by seat (entry_records (entry_of file.now ∷ []) (slot_for (entry_of file.now) (queued_as (address file.now.dest) (key_of file.now.key) (queue.now ++ self.old.fresh.items)) ∷ []))) }
    {
        if let Some(number) = number_queued(file, queue, self.fresh.as_slice()) {
            return add(Slot::Again(number), &mut self.slots);
        }
        add_record(alloc, seat, file, &mut self.records)?;
        add_entry(alloc, file, staged, &mut self.fresh)?;
        add(Slot::New(file.number), &mut self.slots)
    }
}

// The number under which an address has that key already, in the queue or among the new entries.
fn number_queued(file: &NewFile, queue: &[QueuedFile], fresh: &[QueuedFile]) -> Option<u32>
    ensures { result ≡ option_map (λ (e : Entry). e.number) (queued_as (address file.now.dest) (key_of file.now.key) (queue.now ++ fresh.now)) }
{
    if let Some(place) = place_queued(queue, &file.dest, &file.key) {
        return Some(queue[place].number());
    }
    match place_queued(fresh, &file.dest, &file.key) {
        Some(place) => Some(fresh[place].number()),
        None => None,
    }
}

// Adds the record of a new entry.
fn add_record(
    alloc: Global,
    seat: u32,
    file: &NewFile,
    records: &mut Vec<LogEntry>,
) -> Result<(), NoMemory>
    ensures { OnOk result (records.new.items ≡ records.old.items ++ by seat (Queue_record file.now.number (address file.now.dest) (key_of file.now.key) file.now.flavour file.now.source.list file.now.action)) }
{
    let entry = LogRecord::Queued {
        number: file.number,
        dest: file.dest.copy(alloc)?,
        key: file.key.copy(alloc)?,
        flavour: file.flavour,
        source: file.source.copy(alloc)?,
        action: file.action,
    };
    add(LogEntry::new(seat, entry), records)
}

// The entry of a file with that content.
fn entry_for(alloc: Global, file: &NewFile, content: &[u8]) -> Result<QueuedFile, NoMemory>
    requires { IsKey (key_of file.now.key) }
    ensures { IfOk result (λ entry. entry ≡ entry_with (entry_of file.now) content.now) }
{
    Ok(QueuedFile {
        number: file.number,
        dest: file.dest.copy(alloc)?,
        key: file.key.copy(alloc)?,
        flavour: file.flavour,
        source: file.source.copy(alloc)?,
        action: file.action,
        acted: false,
        content: Some(Bytes::from_slice(alloc, content)?),
    })
}

// Adds the entry of a staged file.
fn add_entry(
    alloc: Global,
    file: &NewFile,
    staged: &[StagedFile],
    fresh: &mut Vec<QueuedFile>,
) -> Result<(), NoMemory>
    requires { IsKey (key_of file.now.key) }
    ensures { OnOk result (fresh.new.items ≡ queue_staged (entry_of file.now) (staged_in file.now.number staged.now) fresh.old.items) }
{
    let Some(place) = place_staged(staged, file.number) else {
        return Ok(());
    };
    let entry = entry_for(alloc, file, staged[place].content())?;
    add(entry, fresh)
}

/// How these files are queued, one behind another.
pub fn plan_all(
    alloc: Global,
    seat: u32,
    files: &[NewFile],
    queue: &[QueuedFile],
    staged: &[StagedFile],
) -> Result<Plan, NoMemory>
    requires { Each (λ (f : NewEntry). IsKey f.key) (map entry_of files.now) }
    ensures slots { IfOk result (λ plan. map slot_of plan.slots.items ≡ slots_of (map entry_of files.now) staged.now queue.now) }
    ensures fresh { IfOk result (λ plan. queue.now ++ plan.fresh.items ≡ queue_each (map entry_of files.now) staged.now queue.now) }
    ensures records { IfOk result (λ plan. plan.records.items ≡ all_by seat (entry_records (map entry_of files.now) (slots_of (map entry_of files.now) staged.now queue.now))) }
{
    let mut plan = Plan {
        slots: Vec::new(alloc),
        fresh: Vec::new(alloc),
        records: Vec::new(alloc),
    };
    for file in files {
        plan.add(alloc, seat, file, queue, staged)?;
    }
    Ok(plan)
}

/// Adds the record of a take.
pub fn record_take(
    seat: u32,
    take: Option<u32>,
    records: &mut Vec<LogEntry>,
) -> Result<(), NoMemory>
    ensures { OnOk result (records.new.items ≡ records.old.items ++ all_by seat (taken_records take)) }
{
    match take {
        Some(take) => add(LogEntry::new(seat, LogRecord::Taken { take }), records),
        None => Ok(()),
    }
}

/// Adds the record of an answered request.
pub fn record_answer(
    seat: u32,
    answered: Option<u32>,
    records: &mut Vec<LogEntry>,
) -> Result<(), NoMemory>
    ensures { OnOk result (records.new.items ≡ records.old.items ++ all_by seat (answered_records answered)) }
{
    match answered {
        Some(receipt) => add(
            LogEntry::new(seat, LogRecord::Answered { receipt }),
            records,
        ),
        None => Ok(()),
    }
}

/// Notes a take, where there is room for it.
pub fn note_take(take: Option<u32>, recorded: &mut Vec<u32>)
    requires { vec_len recorded.old < vec_capacity recorded.old }
    ensures { recorded.new.items ≡ with_take take recorded.old.items }
{
    match take {
        Some(take) => put(take, recorded),
        None => (),
    }
}

// The received request with that number is answered.
fn answer_one(number: u32, inbox: &mut Vec<Received>)
    requires { OneEach (λ (r : Receipt). r.number) inbox.old.items }
    ensures items { inbox.new.items ≡ map (answered_receipt number) inbox.old.items }
    ensures len { vec_len inbox.new ≡ vec_len inbox.old }
    ensures capacity { vec_capacity inbox.new ≡ vec_capacity inbox.old }
{
    let Some(place) = position_of_receipt(inbox.as_slice(), number) else {
        return;
    };
    inbox[place].answer();
}

/// A received request is answered.
pub fn answer(answered: Option<u32>, inbox: &mut Vec<Received>)
    requires { OneEach (λ (r : Receipt). r.number) inbox.old.items }
    ensures items { inbox.new.items ≡ all_answered answered inbox.old.items }
    ensures len { vec_len inbox.new ≡ vec_len inbox.old }
    ensures capacity { vec_capacity inbox.new ≡ vec_capacity inbox.old }
{
    match answered {
        Some(number) => answer_one(number, inbox),
        None => (),
    }
}

// Whether one of these files was staged under that number.
fn has_number(files: &[NewFile], number: u32) -> bool
    ensures { result ≡ list_any (λ (f : NewFile). f.number == number) files.now }
{
    files.iter().any(|file| file.number == number)
}

// Whether the staged file is one of these.
fn is_among(files: &[NewFile], file: &StagedFile) -> bool
    ensures { result ≡ is_listed (map entry_of files.now) file.now }
{
    has_number(files, file.number())
}

/// These files are staged no more.
pub fn unstage(files: &[NewFile], staged: &mut Vec<StagedFile>)
    ensures { staged.new.items ≡ without (λ (s : StagedOf (List ℕ)). is_listed (map entry_of files.now) s) staged.old.items }
{
    staged.retain(|file| !is_among(files, file));
}
