//! The rules of the fold.
ghost use Rattle.std.specs.Prelude.{◌≡◌, ◌==◌, ◌&&◌, nat_lt, nat_le, map, position};
ghost use Rattle.std.specs.List.{list_all, list_any};
ghost use Rattle.ftn_addr.specs.Address.{address};
ghost use Rattle.ftn_addr.specs.Files.{is_same};
ghost use Rattle.ftn_addr.specs.Key.{key_of};
ghost use Rattle.ledger_rec.specs.Fold.{is_among, is_received, is_refused, is_known, is_marked, is_part_of, may_queue, may_receive, goes_on, begins, may_mark, is_request, is_live, waits_for_action, waits_for_answer, numbers};
ghost use Rattle.file_index.specs.Numbered.{Numbers};
ghost use Rattle.ledger_rec.specs.Indexed.{Agrees, is_queued, are_below};
ghost use Rattle.ledger_rec.specs.Items.{entry, receipt};
ghost use Rattle.ledger_rec.specs.Lists.{state_of};
ghost use Rattle.ledger_rec.specs.Record.{record_of, new_file, received, mark};

use crate::items::{InboxItem, MarkItem, QueueItem, RefusedItem};
use crate::lists::Lists;
use crate::{MarkRec, NewFileRec, ReceivedRec, Record};
use file_index::NumberIndex;
use ftn_addr::{Addr, FileKey, is_same_address, is_same_key};

/// Whether no number of the record is 0.
pub(crate) fn is_numbered(rec: &Record) -> bool
    ensures { result ≡ list_all (λ n. nat_lt 0 n) (numbers (record_of rec.now)) }
{
    match rec {
        Record::Queue(rec) => rec.number > 0,
        Record::Done(number, session) => *number > 0 && *session > 0,
        Record::Received(rec) => rec.receipt > 0 && rec.session > 0,
        Record::Refused(rec) => rec.session > 0,
        Record::Mark(rec) => rec.part > 0,
        Record::Taken(take) => *take > 0,
        Record::Acted(number) => *number > 0,
        Record::Answered(receipt) => *receipt > 0,
    }
}

/// Whether a file of one address has the key and address of another.
pub(crate) fn is_same(from: &Addr, key: &FileKey, addr: &Addr, other: &FileKey) -> bool
    ensures { result ≡ is_same (address from.now) (key_of key.now) (address addr.now) (key_of other.now) }
{
    is_same_address(from, addr) && is_same_key(key, other)
}

pub(crate) fn is_among(number: u32, numbers: &[u32]) -> bool
    ensures { result ≡ is_among number numbers.now }
{
    numbers.iter().any(|n| *n == number)
}

fn is_in_inbox(from: &Addr, key: &FileKey, inbox: &[InboxItem]) -> bool
    ensures { result ≡ list_any (λ i. is_same (address from.now) (key_of key.now) (address i.from) (key_of i.key)) inbox.now }
{
    inbox
        .iter()
        .any(|item| is_same(from, key, &item.from, &item.key))
}

fn is_in_refused(from: &Addr, key: &FileKey, refused: &[RefusedItem]) -> bool
    ensures { result ≡ list_any (λ i. is_same (address from.now) (key_of key.now) (address i.from) (key_of i.key)) refused.now }
{
    refused
        .iter()
        .any(|item| is_same(from, key, &item.from, &item.key))
}

/// Whether every queued file has a lower number.
fn are_below(number: u32, lists: &Lists) -> bool
    requires { Agrees lists.now.index (state_of lists.now) }
    ensures { result ≡ are_below number (map entry lists.now.queue.items) }
{
    lists.queue.is_empty() || lists.index.greatest < number
}

/// Whether a file of that key was queued for that address.
fn is_in_queue(dest: &Addr, key: &FileKey, queue: &[QueueItem]) -> bool
    ensures { result ≡ list_any (λ i. is_same (address dest.now) (key_of key.now) (address i.dest) (key_of i.key)) queue.now }
{
    queue
        .iter()
        .any(|item| is_same(dest, key, &item.dest, &item.key))
}

/// Whether a file of that key was queued for that address.
#[tactic(auto, using(crate::proofs::Mapped::list_any_map))]
pub(crate) fn is_queued(dest: &Addr, key: &FileKey, lists: &Lists) -> bool
    requires { Agrees lists.now.index (state_of lists.now) }
    ensures { result ≡ is_queued (address dest.now) (key_of key.now) (map entry lists.now.queue.items) }
{
    match lists.index.queued.find(dest, key) {
        Some(found) => found,
        None => is_in_queue(dest, key, lists.queue.as_slice()),
    }
}

/// Whether the number is that of an earlier part or receipt.
fn is_used(number: u32, lists: &Lists) -> bool
    requires { Agrees lists.now.index (state_of lists.now) }
    ensures { result ≡ is_among number lists.now.parts.items }
{
    match lists.index.parts.find(number) {
        Some(found) => found,
        None => is_among(number, lists.parts.as_slice()),
    }
}

/// Whether the take is recorded.
pub(crate) fn is_taken(take: u32, lists: &Lists) -> bool
    requires { Agrees lists.now.index (state_of lists.now) }
    ensures { result ≡ is_among take lists.now.takes.items }
{
    match lists.index.takes.find(take) {
        Some(found) => found,
        None => is_among(take, lists.takes.as_slice()),
    }
}

fn is_marked(from: &Addr, key: &FileKey, marks: &[MarkItem]) -> bool
    ensures { result ≡ list_any (λ i. is_same (address from.now) (key_of key.now) (address i.from) (key_of i.key)) marks.now }
{
    marks
        .iter()
        .any(|item| is_same(from, key, &item.from, &item.key))
}

/// Whether the number is that of a marked part of the sender and key.
fn is_part_of(number: u32, from: &Addr, key: &FileKey, marks: &[MarkItem]) -> bool
    ensures { result ≡ list_any (λ i. i.part == number && is_same (address from.now) (key_of key.now) (address i.from) (key_of i.key)) marks.now }
{
    marks.iter().any(|item| item.part == number && is_same(from, key, &item.from, &item.key))
}

/// Where the mark of the record's part, sender and key stands.
pub(crate) fn standing_at(rec: &MarkRec, marks: &[MarkItem]) -> Option<usize>
    ensures { result ≡ position (λ m. m.part == rec.now.part && is_same (address rec.now.from) (key_of rec.now.key) (address m.from) (key_of m.key)) marks.now }
{
    marks.iter().position(|m| m.part == rec.part && is_same(&rec.from, &rec.key, &m.from, &m.key))
}

/// Whether the mark's part is marked already, with a length that isn't greater.
fn goes_on(rec: &MarkRec, marks: &[MarkItem]) -> bool
    ensures { result ≡ list_any (λ i. i.part == rec.now.part && (is_same (address rec.now.from) (key_of rec.now.key) (address i.from) (key_of i.key) && nat_le i.len rec.now.length)) marks.now }
{
    marks.iter().any(|item| {
        item.part == rec.part
            && (is_same(&rec.from, &rec.key, &item.from, &item.key) && item.len <= rec.length)
    })
}

/// Where the live file with that number stands.
pub(crate) fn live_at(number: u32, numbers: &NumberIndex, queue: &[QueueItem]) -> Option<usize>
    requires { Numbers numbers.now (map (λ e. e.number) (map entry queue.now)) }
    ensures { result ≡ position (λ e. is_live number (entry e)) queue.now }
{
    let start = numbers.start(number, queue.len());
    let behind = first_live(number, &queue[start..]);
    match behind {
        Some(i) => Some(start + i),
        None => None,
    }
}

fn first_live(number: u32, queue: &[QueueItem]) -> Option<usize>
    ensures { result ≡ position (λ e. is_live number (entry e)) queue.now }
{
    queue
        .iter()
        .position(|item| item.number == number && item.live)
}

/// Where the file with that number stands, if it has an action that wasn't done.
pub(crate) fn action_at(number: u32, numbers: &NumberIndex, queue: &[QueueItem]) -> Option<usize>
    requires { Numbers numbers.now (map (λ e. e.number) (map entry queue.now)) }
    ensures { result ≡ position (λ e. waits_for_action number (entry e)) queue.now }
{
    let start = numbers.start(number, queue.len());
    let behind = first_action(number, &queue[start..]);
    match behind {
        Some(i) => Some(start + i),
        None => None,
    }
}

fn first_action(number: u32, queue: &[QueueItem]) -> Option<usize>
    ensures { result ≡ position (λ e. waits_for_action number (entry e)) queue.now }
{
    queue.iter().position(|item| item.number == number && (item.action > 0 && !item.acted))
}

/// Whether a file of that name is a request: it ends with `.req`, with the case of ASCII letters ignored.
pub fn is_request(name: &[u8]) -> bool
    ensures { result ≡ is_request name.now }
{
    let place = name.len().saturating_sub(4);
    name[place..].eq_ignore_ascii_case(b".req")
}

/// Where the received request with that receipt stands, if it wasn't answered.
pub(crate) fn request_at(number: u32, receipts: &NumberIndex, inbox: &[InboxItem]) -> Option<usize>
    requires { Numbers receipts.now (map (λ r. r.number) (map receipt inbox.now)) }
    ensures { result ≡ position (λ r. waits_for_answer number (receipt r)) inbox.now }
{
    let start = receipts.start(number, inbox.len());
    let behind = first_request(number, &inbox[start..]);
    match behind {
        Some(i) => Some(start + i),
        None => None,
    }
}

fn first_request(number: u32, inbox: &[InboxItem]) -> Option<usize>
    ensures { result ≡ position (λ r. waits_for_answer number (receipt r)) inbox.now }
{
    inbox.iter().position(|item| {
        item.receipt == number && (is_request(item.key.name.as_slice()) && !item.answered)
    })
}

/// Whether the sender and key are received.
#[tactic(auto, using(crate::proofs::Mapped::list_any_map))]
pub(crate) fn is_received(from: &Addr, key: &FileKey, lists: &Lists) -> bool
    requires { Agrees lists.now.index (state_of lists.now) }
    ensures { result ≡ is_received (address from.now) (key_of key.now) (state_of lists.now).inbox }
{
    match lists.index.received.find(from, key) {
        Some(found) => found,
        None => is_in_inbox(from, key, lists.inbox.as_slice()),
    }
}

/// Whether the sender and key are refused.
#[tactic(auto, using(crate::proofs::Mapped::list_any_map))]
pub(crate) fn is_refused(from: &Addr, key: &FileKey, lists: &Lists) -> bool
    requires { Agrees lists.now.index (state_of lists.now) }
    ensures { result ≡ is_refused (address from.now) (key_of key.now) (state_of lists.now).refused }
{
    match lists.index.refused.find(from, key) {
        Some(found) => found,
        None => is_in_refused(from, key, lists.refused.as_slice()),
    }
}

/// Whether the sender and key are received or refused.
pub(crate) fn is_known(from: &Addr, key: &FileKey, lists: &Lists) -> bool
    requires { Agrees lists.now.index (state_of lists.now) }
    ensures { result ≡ is_known (address from.now) (key_of key.now) (state_of lists.now) }
{
    is_received(from, key, lists) || is_refused(from, key, lists)
}

#[tactic(auto, using(crate::proofs::Mapped::list_any_map, crate::proofs::Mapped::list_all_map))]
pub(crate) fn may_queue(rec: &NewFileRec, lists: &Lists) -> bool
    requires { Agrees lists.now.index (state_of lists.now) }
    ensures { result ≡ may_queue (new_file rec.now) (map entry lists.now.queue.items) }
{
    are_below(rec.number, lists) && !is_queued(&rec.dest, &rec.key, lists)
}

#[tactic(auto, using(crate::proofs::Mapped::list_any_map, crate::proofs::Mapped::list_all_map))]
pub(crate) fn may_receive(rec: &ReceivedRec, lists: &Lists) -> bool
    requires { Agrees lists.now.index (state_of lists.now) }
    ensures { result ≡ may_receive (received rec.now) (state_of lists.now) }
{
    !is_known(&rec.from, &rec.key, lists)
        && (is_part_of(rec.receipt, &rec.from, &rec.key, lists.marks.as_slice())
            || !is_used(rec.receipt, lists))
}

/// Whether the mark's part is new, and its sender and key have no mark and aren't known.
#[tactic(auto, using(crate::proofs::Mapped::list_any_map, crate::proofs::Mapped::list_all_map))]
fn begins(rec: &MarkRec, lists: &Lists) -> bool
    requires { Agrees lists.now.index (state_of lists.now) }
    ensures { result ≡ begins (mark rec.now) (state_of lists.now) }
{
    !is_used(rec.part, lists)
        && (!is_marked(&rec.from, &rec.key, lists.marks.as_slice())
            && !is_known(&rec.from, &rec.key, lists))
}

#[tactic(auto, using(crate::proofs::Mapped::list_any_map, crate::proofs::Mapped::list_all_map))]
pub(crate) fn may_mark(rec: &MarkRec, lists: &Lists) -> bool
    requires { Agrees lists.now.index (state_of lists.now) }
    ensures { result ≡ may_mark (mark rec.now) (state_of lists.now) }
{
    rec.length > 0
        && (rec.length <= rec.key.size
            && (goes_on(rec, lists.marks.as_slice()) || begins(rec, lists)))
}
