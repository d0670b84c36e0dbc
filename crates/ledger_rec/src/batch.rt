//! Files that are queued together.
ghost use Rattle.std.specs.Prelude.{◌≡◌, ◌&&◌, ◌+◌, ◌<◌, ◌≤◌, length, map, is_some, Some, None, IfSome, IsSome, IsErrOf, OnOk, OnErr};
ghost use Rattle.ledger_rec.specs.Batch.{all_queued, answered_records, batch_records, queue_records, taken_records};
ghost use Rattle.ledger_rec.specs.Fold.{answered, changed, fold_all, fold_step, waits_for_answer};
ghost use Rattle.ledger_rec.specs.Indexed.{Agrees};
ghost use Rattle.ledger_rec.specs.Lists.{state_of};
ghost use Rattle.ledger_rec.specs.Record.{new_file, record_of};
ghost use Rattle.ledger_rec.specs.declared.fault.FoldFault.TheVariants.{BadFold as BreaksRule};

use crate::lists::Lists;
use crate::planned::Planned;
use crate::rules::{is_taken, request_at};
use crate::{FoldFault, Folded, NewFileRec, Record};
use ftn_addr::NoMemory;
use std::alloc::Global;

/// Files that are queued in one durable change, with what brought them.
#[derive(Debug, Drop)]
pub struct Batch {
    /// In the order of their records.
    pub files: Vec<NewFileRec>,
    /// The take that they came with, which is recorded behind them.
    pub take: Option<u32>,
    /// The receipt of the request that they answer, which is recorded last.
    pub answered: Option<u32>,
}

/// Whether the records of a batch follow from those before.
pub(crate) fn check(alloc: Global, batch: &Batch, lists: &Lists) -> Result<(), FoldFault>
    requires { Agrees lists.now.index (state_of lists.now) }
    ensures ok { OnOk result (IsSome (fold_all (state_of lists.now) (batch_records batch.now))) }
    ensures bad { IsErrOf result BreaksRule → fold_all (state_of lists.now) (batch_records batch.now) ≡ None }
{
    match check_files(alloc, batch.files.as_slice(), lists) {
        Ok(()) => (),
        Err(fault) => return Err(fault),
    }
    if may_end(batch.take, batch.answered, lists) {
        Ok(())
    } else {
        Err(FoldFault::BadFold)
    }
}

fn check_files(alloc: Global, files: &[NewFileRec], lists: &Lists) -> Result<(), FoldFault>
    requires { Agrees lists.now.index (state_of lists.now) }
    ensures ok { OnOk result (fold_all (state_of lists.now) (queue_records (map new_file files.now)) ≡ Some (all_queued (map new_file files.now) (state_of lists.now))) }
    ensures bad { IsErrOf result BreaksRule → fold_all (state_of lists.now) (queue_records (map new_file files.now)) ≡ None }
{
    let mut planned = Planned::new(alloc, lists);
    for file in files {
        match planned.takes(file, lists) {
            Some(true) => planned.note(file),
            Some(false) => return Err(FoldFault::BadFold),
            None => return Err(FoldFault::NoMemory),
        }
    }
    Ok(())
}

// Whether the take and the answer follow, both or neither of which a file of the queue touches.
fn may_end(take: Option<u32>, answered: Option<u32>, lists: &Lists) -> bool
    requires { Agrees lists.now.index (state_of lists.now) }
    ensures { result ≡ (is_some (fold_all (state_of lists.now) (taken_records take)) && is_some (fold_all (state_of lists.now) (answered_records answered))) }
{
    may_take(take, lists) && may_answer(answered, lists)
}

fn may_take(take: Option<u32>, lists: &Lists) -> bool
    requires { Agrees lists.now.index (state_of lists.now) }
    ensures { result ≡ is_some (fold_all (state_of lists.now) (taken_records take)) }
{
    match take {
        Some(take) => take > 0 && !is_taken(take, lists),
        None => true,
    }
}

fn may_answer(answered: Option<u32>, lists: &Lists) -> bool
    requires { Agrees lists.now.index (state_of lists.now) }
    ensures { result ≡ is_some (fold_all (state_of lists.now) (answered_records answered)) }
{
    match answered {
        Some(receipt) => receipt > 0 && waits_for_answer(receipt, lists),
        None => true,
    }
}

// Whether the request with that receipt is received and not answered.
fn waits_for_answer(receipt: u32, lists: &Lists) -> bool
    requires { Agrees lists.now.index (state_of lists.now) }
    ensures { result ≡ is_some (changed (waits_for_answer receipt) answered (state_of lists.now).inbox) }
{
    request_at(receipt, &lists.index.receipts, lists.inbox.as_slice()).is_some()
}

// How many records a number has that may be there.
fn record_count(number: Option<u32>) -> u32
    ensures taken { result ≡ length (taken_records number) }
    ensures answered { result ≡ length (answered_records number) }
    ensures few { result ≤ 1 }
{
    match number {
        Some(_) => 1,
        None => 0,
    }
}

impl Batch {
    // The room for its records beside other room; None where they are too many to be counted.
    fn room_beside(&self, room: u32) -> Option<u32>
        ensures { IfSome result (λ all. all ≡ room + length (batch_records self.now)) }
    {
        let files = u32::try_from(self.files.len()).ok()?;
        let ends = record_count(self.take) + record_count(self.answered);
        room.checked_add(files)?.checked_add(ends)
    }
}

impl Folded {
    /// Says whether the records of a batch follow, and makes room for them beside the room that there is.
    /// After an error all is as before.
    ///
    /// [`FoldFault::BadFold`] comes exactly where one of them breaks a rule of the fold after those before.
    pub fn prepare(&mut self, alloc: Global, batch: &Batch) -> Result<(), FoldFault>
        ensures follows { OnOk result (IsSome (fold_all self.old.state (batch_records batch.now))) }
        ensures room { OnOk result (self.old.room + length (batch_records batch.now) ≤ self.new.room) }
        ensures state { self.new.state ≡ self.old.state }
        ensures holds { self.new.holds ≡ self.old.holds }
        ensures bad { IsErrOf result BreaksRule → fold_all self.old.state (batch_records batch.now) ≡ None }
        ensures err { OnErr result (self.new ≡ self.old) }
    {
        match check(alloc, batch, &self.lists) {
            Ok(()) => (),
            Err(fault) => return Err(fault),
        }
        let Some(room) = batch.room_beside(self.room) else {
            return Err(FoldFault::NoMemory);
        };
        match self.reserve(room) {
            Ok(()) => Ok(()),
            Err(NoMemory) => Err(FoldFault::NoMemory),
        }
    }

    /// Folds the records of a batch in, which follow and for which there is room. It takes no memory.
    pub fn add_batch(&mut self, batch: Batch)
        requires follows { IsSome (fold_all self.old.state (batch_records batch)) }
        requires room { length (batch_records batch) ≤ self.old.room }
        ensures step { fold_all self.old.state (batch_records batch) ≡ Some self.new.state }
        ensures holds { self.new.holds ≡ self.old.holds }
        ensures room { self.old.room ≤ self.new.room + length (batch_records batch) }
    {
        let Batch {
            files,
            take,
            answered,
        } = batch;
        self.put_files(files);
        self.put_take(take);
        self.put_answer(answered);
    }

    fn put_files(&mut self, files: Vec<NewFileRec>)
        requires follows { IsSome (fold_all self.old.state (queue_records (map new_file files.items))) }
        requires room { length files.items ≤ self.old.room }
        ensures step { fold_all self.old.state (queue_records (map new_file files.items)) ≡ Some self.new.state }
        ensures holds { self.new.holds ≡ self.old.holds }
        ensures room { self.old.room ≤ self.new.room + length files.items }
    {
        for file in files {
            self.put(Record::Queue(file));
        }
    }

    fn put_take(&mut self, take: Option<u32>)
        requires follows { IsSome (fold_all self.old.state (taken_records take)) }
        requires room { length (taken_records take) ≤ self.old.room }
        ensures step { fold_all self.old.state (taken_records take) ≡ Some self.new.state }
        ensures holds { self.new.holds ≡ self.old.holds }
        ensures room { self.old.room ≤ self.new.room + length (taken_records take) }
    {
        match take {
            Some(take) => self.put(Record::Taken(take)),
            None => (),
        }
    }

    fn put_answer(&mut self, answered: Option<u32>)
        requires follows { IsSome (fold_all self.old.state (answered_records answered)) }
        requires room { length (answered_records answered) ≤ self.old.room }
        ensures step { fold_all self.old.state (answered_records answered) ≡ Some self.new.state }
        ensures holds { self.new.holds ≡ self.old.holds }
        ensures room { self.old.room ≤ self.new.room + length (answered_records answered) }
    {
        match answered {
            Some(receipt) => self.put(Record::Answered(receipt)),
            None => (),
        }
    }

    // Folds a record in that follows, and for which there is room.
    fn put(&mut self, rec: Record)
        requires follows { IsSome (fold_step self.old.state (record_of rec)) }
        requires room { 0 < self.old.room }
        ensures step { fold_step self.old.state (record_of rec) ≡ Some self.new.state }
        ensures holds { self.new.holds ≡ self.old.holds }
        ensures room { self.old.room ≤ self.new.room + 1 }
    {
        match self.add_owned(rec) {
            Ok(()) => (),
            Err(_) => unreachable!(),
        }
    }
}
