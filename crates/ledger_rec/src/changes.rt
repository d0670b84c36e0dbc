//! What each record changes, once it keeps the rules.
ghost use Rattle.std.specs.Prelude.{◌≡◌, ◌==◌, ◌&&◌, ◌+◌, ◌-◌, ◌<◌, ◌≤◌, ℕ, true, Some, nat_lt, [], ◌∷◌, ◌++◌, length, map, position, unwrap_or, vec_len, vec_capacity, IfErr, IsOk, OnOk};
ghost use Rattle.ftn_addr.specs.Address.{address};
ghost use Rattle.ftn_addr.specs.Files.{is_same};
ghost use Rattle.ftn_addr.specs.Key.{key_of};
ghost use Rattle.ledger_rec.specs.Fold.{is_live, settled, waits_for_action, acted_on, waits_for_answer, answered, changed, unmarked, in_place, is_among, with_number, with_queued, with_receipt, with_refusal, with_mark, with_take};
ghost use Rattle.file_index.specs.Numbered.{Numbers};
ghost use Rattle.ledger_rec.specs.Indexed.{Agrees, are_below};
ghost use Rattle.ledger_rec.specs.Items.{entry, receipt, part_mark};
ghost use Rattle.ledger_rec.specs.Lists.{state_of, HasRoom, Steps};
ghost use Rattle.ledger_rec.specs.Record.{new_file, received, refused, mark};
ghost use Rattle.ledger_rec.specs.declared.fault.FoldFault.TheVariants.{BadFold as BreaksRule};

use crate::items::{InboxItem, MarkItem, QueueItem, RefusedItem};
use crate::lists::Lists;
use crate::rules::{action_at, is_among, is_same, live_at, request_at};
use crate::{FoldFault, MarkRec, NewFileRec, ReceivedRec, RefusedRec};
use file_index::NumberIndex;
use ftn_addr::{Addr, FileKey, NoMemory};

/// The live file with that number is done.
pub(crate) fn settle(
    number: u32,
    numbers: &NumberIndex,
    queue: &mut [QueueItem],
) -> Result<(), FoldFault>
    requires { Numbers numbers.now (map (λ e. e.number) (map entry queue.old)) }
    ensures step { Steps result (changed (is_live number) settled (map entry queue.old)) (map entry queue.old) (map entry queue.new) }
    ensures cause { IfErr result (λ fault. fault ≡ BreaksRule) }
{
    match live_at(number, numbers, queue) {
        Some(i) => {
            queue[i].live = false;
            Ok(())
        }
        None => Err(FoldFault::BadFold),
    }
}

/// The action of the file with that number is done.
pub(crate) fn act(
    number: u32,
    numbers: &NumberIndex,
    queue: &mut [QueueItem],
) -> Result<(), FoldFault>
    requires { Numbers numbers.now (map (λ e. e.number) (map entry queue.old)) }
    ensures step { Steps result (changed (waits_for_action number) acted_on (map entry queue.old)) (map entry queue.old) (map entry queue.new) }
    ensures cause { IfErr result (λ fault. fault ≡ BreaksRule) }
{
    match action_at(number, numbers, queue) {
        Some(i) => {
            queue[i].acted = true;
            Ok(())
        }
        None => Err(FoldFault::BadFold),
    }
}

/// The request with that receipt is answered.
pub(crate) fn answer(
    number: u32,
    receipts: &NumberIndex,
    inbox: &mut [InboxItem],
) -> Result<(), FoldFault>
    requires { Numbers receipts.now (map (λ r. r.number) (map receipt inbox.old)) }
    ensures step { Steps result (changed (waits_for_answer number) answered (map receipt inbox.old)) (map receipt inbox.old) (map receipt inbox.new) }
    ensures cause { IfErr result (λ fault. fault ≡ BreaksRule) }
{
    match request_at(number, receipts, inbox) {
        Some(i) => {
            inbox[i].answered = true;
            Ok(())
        }
        None => Err(FoldFault::BadFold),
    }
}

/// Makes room for `n` more records of any kind.
pub(crate) fn make_room(lists: &mut Lists, n: usize) -> Result<(), NoMemory>
    ensures state { state_of lists.new ≡ state_of lists.old }
    ensures index { lists.new.index ≡ lists.old.index }
    ensures ok { OnOk result (HasRoom n lists.new) }
    ensures kept { (m : ℕ) → HasRoom m lists.old → HasRoom m lists.new }
    ensures within { HasRoom n lists.old → IsOk result }
{
    lists.queue.reserve(n)?;
    lists.inbox.reserve(n)?;
    lists.refused.reserve(n)?;
    lists.marks.reserve(n)?;
    lists.parts.reserve(n)?;
    lists.takes.reserve(n)?;
    Ok(())
}

// Adds an item that there is room for.
fn push<T: Drop>(item: T, list: &mut Vec<T>)
    requires { vec_len list.old < vec_capacity list.old }
    ensures items { list.new.items ≡ list.old.items ++ item ∷ [] }
    ensures len { vec_len list.new ≡ vec_len list.old + 1 }
    ensures capacity { vec_capacity list.old ≤ vec_capacity list.new }
{
    match list.push(item) {
        Ok(()) => (),
        Err(_) => unreachable!(),
    }
}

// Notes that the number is used.
fn use_number(number: u32, index: &mut NumberIndex, numbers: &mut Vec<u32>)
    requires room { vec_len numbers.old < vec_capacity numbers.old }
    requires index { Numbers index.old numbers.old.items }
    ensures index { Numbers index.new numbers.new.items }
    ensures items { numbers.new.items ≡ with_number number numbers.old.items }
    ensures len { vec_len numbers.new ≤ vec_len numbers.old + 1 }
    ensures capacity { vec_capacity numbers.old ≤ vec_capacity numbers.new }
{
    let used = match index.find(number) {
        Some(found) => found,
        None => is_among(number, numbers.as_slice()),
    };
    if !used {
        index.note(number, numbers.len());
        push(number, numbers);
    }
}

// Takes the marks of a sender and key away.
fn unmark(from: &Addr, key: &FileKey, marks: &mut Vec<MarkItem>)
    ensures items { map part_mark marks.new.items ≡ unmarked (address from.now) (key_of key.now) (map part_mark marks.old.items) }
    ensures len { vec_len marks.new ≤ vec_len marks.old }
    ensures capacity { vec_capacity marks.old ≤ vec_capacity marks.new }
{
    marks.retain(|mark| !is_same(from, key, &mark.from, &mark.key));
}

// Where the first mark of a later part stands.
fn later_at(part: u32, marks: &[MarkItem]) -> Option<usize>
    ensures { result ≡ position (λ m. nat_lt part m.part) marks.now }
{
    marks.iter().position(|mark| part < mark.part)
}

// Puts a mark at its place.
fn insert(item: MarkItem, marks: &mut Vec<MarkItem>)
    requires { vec_len marks.old < vec_capacity marks.old }
    ensures items { map part_mark marks.new.items ≡ in_place (part_mark item) (map part_mark marks.old.items) }
    ensures len { vec_len marks.new ≡ vec_len marks.old + 1 }
    ensures capacity { vec_capacity marks.old ≤ vec_capacity marks.new }
{
    let place = later_at(item.part, marks.as_slice()).unwrap_or(marks.len());
    match marks.insert(place, item) {
        Ok(()) => (),
        Err(_) => unreachable!(),
    }
}

pub(crate) fn put_queued(rec: NewFileRec, lists: &mut Lists)
    requires room { HasRoom 1 lists.old }
    requires agrees { Agrees lists.old.index (state_of lists.old) }
    requires rising { are_below rec.number (state_of lists.old).queue ≡ true }
    ensures state { state_of lists.new ≡ with_queued (new_file rec) (state_of lists.old) }
    ensures agrees { Agrees lists.new.index (state_of lists.new) }
    ensures room { (n : ℕ) → HasRoom n lists.old → HasRoom (n - 1) lists.new }
{
    let item = QueueItem {
        number: rec.number,
        dest: rec.dest,
        key: rec.key,
        flavour: rec.flavour,
        source: rec.source,
        action: rec.action,
        acted: false,
        live: true,
    };
    lists.index.queued.note(&item.dest, &item.key);
    lists.index.numbers.note(item.number, lists.queue.len());
    lists.index.greatest = item.number;
    push(item, &mut lists.queue);
}

pub(crate) fn put_receipt(rec: ReceivedRec, lists: &mut Lists)
    requires room { HasRoom 1 lists.old }
    requires agrees { Agrees lists.old.index (state_of lists.old) }
    ensures state { state_of lists.new ≡ with_receipt (received rec) (state_of lists.old) }
    ensures agrees { Agrees lists.new.index (state_of lists.new) }
    ensures room { (n : ℕ) → HasRoom n lists.old → HasRoom (n - 1) lists.new }
{
    let item = InboxItem {
        receipt: rec.receipt,
        from: rec.from,
        key: rec.key,
        secure: rec.secure,
        answered: false,
    };
    unmark(&item.from, &item.key, &mut lists.marks);
    use_number(item.receipt, &mut lists.index.parts, &mut lists.parts);
    lists.index.received.note(&item.from, &item.key);
    lists.index.receipts.note(item.receipt, lists.inbox.len());
    push(item, &mut lists.inbox);
}

pub(crate) fn put_refusal(rec: RefusedRec, lists: &mut Lists)
    requires room { HasRoom 1 lists.old }
    requires agrees { Agrees lists.old.index (state_of lists.old) }
    ensures state { state_of lists.new ≡ with_refusal (refused rec) (state_of lists.old) }
    ensures agrees { Agrees lists.new.index (state_of lists.new) }
    ensures room { (n : ℕ) → HasRoom n lists.old → HasRoom (n - 1) lists.new }
{
    unmark(&rec.from, &rec.key, &mut lists.marks);
    let item = RefusedItem {
        from: rec.from,
        key: rec.key,
    };
    lists.index.refused.note(&item.from, &item.key);
    push(item, &mut lists.refused);
}

pub(crate) fn put_mark(rec: MarkRec, lists: &mut Lists)
    requires room { HasRoom 1 lists.old }
    requires agrees { Agrees lists.old.index (state_of lists.old) }
    ensures state { state_of lists.new ≡ with_mark (mark rec) (state_of lists.old) }
    ensures agrees { Agrees lists.new.index (state_of lists.new) }
    ensures room { (n : ℕ) → HasRoom n lists.old → HasRoom (n - 1) lists.new }
{
    unmark(&rec.from, &rec.key, &mut lists.marks);
    use_number(rec.part, &mut lists.index.parts, &mut lists.parts);
    let item = MarkItem {
        part: rec.part,
        from: rec.from,
        key: rec.key,
        len: rec.length,
    };
    insert(item, &mut lists.marks);
}

/// The mark at that place, which is of the record's part, sender and key, gets the record's length.
pub(crate) fn put_longer(rec: &MarkRec, place: usize, lists: &mut Lists)
    requires within { place < vec_len lists.old.marks }
    requires stands { position (λ m. m.part == rec.now.part && is_same (address rec.now.from) (key_of rec.now.key) (address m.from) (key_of m.key)) lists.old.marks.items ≡ Some place }
    requires used { is_among rec.now.part lists.old.parts.items ≡ true }
    requires agrees { Agrees lists.old.index (state_of lists.old) }
    ensures state { state_of lists.new ≡ with_mark (mark rec.now) (state_of lists.old) }
    ensures agrees { Agrees lists.new.index (state_of lists.new) }
    ensures room { (n : ℕ) → HasRoom n lists.old → HasRoom n lists.new }
{
    let mut item = lists.marks.remove(place);
    item.len = rec.length;
    unmark(&rec.from, &rec.key, &mut lists.marks);
    insert(item, &mut lists.marks);
}

pub(crate) fn put_take(take: u32, lists: &mut Lists)
    requires room { HasRoom 1 lists.old }
    requires agrees { Agrees lists.old.index (state_of lists.old) }
    ensures state { state_of lists.new ≡ with_take take (state_of lists.old) }
    ensures agrees { Agrees lists.new.index (state_of lists.new) }
    ensures room { (n : ℕ) → HasRoom n lists.old → HasRoom (n - 1) lists.new }
{
    lists.index.takes.note(take, lists.takes.len());
    push(take, &mut lists.takes);
}
