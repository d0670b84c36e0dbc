//! One step of the fold.
ghost use Rattle.std.specs.Prelude.{◌-◌, ℕ, OnOk, OnErr, IsErrOf};
ghost use Rattle.ledger_rec.specs.Fold.{after, fold_step};
ghost use Rattle.ledger_rec.specs.Indexed.{Agrees};
ghost use Rattle.ledger_rec.specs.Lists.{state_of, HasRoom, Steps};
ghost use Rattle.ledger_rec.specs.Record.{record_of, new_file, received, refused, mark, Queue, Received, Refused, Mark, Taken};
ghost use Rattle.ledger_rec.specs.declared.fault.FoldFault.TheVariants.{NoMemory as OutOfMemory};

use crate::changes::{
    act, answer, make_room, put_mark, put_queued, put_receipt, put_refusal, put_take, settle,
};
use crate::lists::Lists;
use crate::rules::{is_known, is_numbered, is_taken, may_mark, may_queue, may_receive};
use crate::{FoldFault, MarkRec, NewFileRec, ReceivedRec, Record, RefusedRec};

fn add_queued(rec: NewFileRec, lists: &mut Lists) -> Result<(), FoldFault>
    requires agrees { Agrees lists.old.index (state_of lists.old) }
    ensures agrees { Agrees lists.new.index (state_of lists.new) }
    ensures step { Steps result (after (state_of lists.old) (Queue (new_file rec))) (state_of lists.old) (state_of lists.new) }
    ensures used { OnOk result ((n : ℕ) → HasRoom n lists.old → HasRoom (n - 1) lists.new) }
    ensures kept { OnErr result ((n : ℕ) → HasRoom n lists.old → HasRoom n lists.new) }
    ensures within { HasRoom 1 lists.old → IsErrOf result OutOfMemory → ⊥ }
{
    if !may_queue(&rec, lists) {
        return Err(FoldFault::BadFold);
    }
    make_room(lists, 1)?;
    put_queued(rec, lists);
    Ok(())
}

fn add_received(rec: ReceivedRec, lists: &mut Lists) -> Result<(), FoldFault>
    requires agrees { Agrees lists.old.index (state_of lists.old) }
    ensures agrees { Agrees lists.new.index (state_of lists.new) }
    ensures step { Steps result (after (state_of lists.old) (Received (received rec))) (state_of lists.old) (state_of lists.new) }
    ensures used { OnOk result ((n : ℕ) → HasRoom n lists.old → HasRoom (n - 1) lists.new) }
    ensures kept { OnErr result ((n : ℕ) → HasRoom n lists.old → HasRoom n lists.new) }
    ensures within { HasRoom 1 lists.old → IsErrOf result OutOfMemory → ⊥ }
{
    if !may_receive(&rec, lists) {
        return Err(FoldFault::BadFold);
    }
    make_room(lists, 1)?;
    put_receipt(rec, lists);
    Ok(())
}

fn add_refused(rec: RefusedRec, lists: &mut Lists) -> Result<(), FoldFault>
    requires agrees { Agrees lists.old.index (state_of lists.old) }
    ensures agrees { Agrees lists.new.index (state_of lists.new) }
    ensures step { Steps result (after (state_of lists.old) (Refused (refused rec))) (state_of lists.old) (state_of lists.new) }
    ensures used { OnOk result ((n : ℕ) → HasRoom n lists.old → HasRoom (n - 1) lists.new) }
    ensures kept { OnErr result ((n : ℕ) → HasRoom n lists.old → HasRoom n lists.new) }
    ensures within { HasRoom 1 lists.old → IsErrOf result OutOfMemory → ⊥ }
{
    if is_known(&rec.from, &rec.key, lists) {
        return Err(FoldFault::BadFold);
    }
    make_room(lists, 1)?;
    put_refusal(rec, lists);
    Ok(())
}

fn add_mark(rec: MarkRec, lists: &mut Lists) -> Result<(), FoldFault>
    requires agrees { Agrees lists.old.index (state_of lists.old) }
    ensures agrees { Agrees lists.new.index (state_of lists.new) }
    ensures step { Steps result (after (state_of lists.old) (Mark (mark rec))) (state_of lists.old) (state_of lists.new) }
    ensures used { OnOk result ((n : ℕ) → HasRoom n lists.old → HasRoom (n - 1) lists.new) }
    ensures kept { OnErr result ((n : ℕ) → HasRoom n lists.old → HasRoom n lists.new) }
    ensures within { HasRoom 1 lists.old → IsErrOf result OutOfMemory → ⊥ }
{
    if !may_mark(&rec, lists) {
        return Err(FoldFault::BadFold);
    }
    make_room(lists, 1)?;
    put_mark(rec, lists);
    Ok(())
}

fn add_take(take: u32, lists: &mut Lists) -> Result<(), FoldFault>
    requires agrees { Agrees lists.old.index (state_of lists.old) }
    ensures agrees { Agrees lists.new.index (state_of lists.new) }
    ensures step { Steps result (after (state_of lists.old) (Taken take)) (state_of lists.old) (state_of lists.new) }
    ensures used { OnOk result ((n : ℕ) → HasRoom n lists.old → HasRoom (n - 1) lists.new) }
    ensures kept { OnErr result ((n : ℕ) → HasRoom n lists.old → HasRoom n lists.new) }
    ensures within { HasRoom 1 lists.old → IsErrOf result OutOfMemory → ⊥ }
{
    if is_taken(take, lists) {
        return Err(FoldFault::BadFold);
    }
    make_room(lists, 1)?;
    put_take(take, lists);
    Ok(())
}

/// Folds one record into the lists.
pub(crate) fn add(rec: Record, lists: &mut Lists) -> Result<(), FoldFault>
    requires agrees { Agrees lists.old.index (state_of lists.old) }
    ensures agrees { Agrees lists.new.index (state_of lists.new) }
    ensures step { Steps result (fold_step (state_of lists.old) (record_of rec)) (state_of lists.old) (state_of lists.new) }
    ensures used { OnOk result ((n : ℕ) → HasRoom n lists.old → HasRoom (n - 1) lists.new) }
    ensures kept { OnErr result ((n : ℕ) → HasRoom n lists.old → HasRoom n lists.new) }
    ensures within { HasRoom 1 lists.old → IsErrOf result OutOfMemory → ⊥ }
{
    if !is_numbered(&rec) {
        return Err(FoldFault::BadFold);
    }
    match rec {
        Record::Queue(rec) => add_queued(rec, lists),
        Record::Done(number, _) => settle(number, &lists.index.numbers, lists.queue.as_mut_slice()),
        Record::Received(rec) => add_received(rec, lists),
        Record::Refused(rec) => add_refused(rec, lists),
        Record::Mark(rec) => add_mark(rec, lists),
        Record::Taken(take) => add_take(take, lists),
        Record::Acted(number) => act(number, &lists.index.numbers, lists.queue.as_mut_slice()),
        Record::Answered(receipt) => answer(
            receipt,
            &lists.index.receipts,
            lists.inbox.as_mut_slice(),
        ),
    }
}
