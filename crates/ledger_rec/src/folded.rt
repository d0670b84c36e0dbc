//! The fold of a ledger's records.
ghost use Rattle.std.specs.Prelude.{◌≡◌, ◌+◌, ◌<◌, ◌≤◌, false, [], ◌∷◌, ◌++◌, length, map, option_map, take, position, Some, None, OnOk, OnErr, IsErrOf, IsOk};
ghost use Rattle.ftn_addr.specs.Address.{address};
ghost use Rattle.file_index.specs.Turns.{NextTurn};
ghost use Rattle.ftn_addr.specs.Files.{is_same};
ghost use Rattle.ftn_addr.specs.Key.{key_of};
ghost use Rattle.ledger_rec.specs.Acting.{acting_turn, is_acting};
ghost use Rattle.ledger_rec.specs.Fold.{fold_step, is_among, is_received, is_refused, nothing_folded, without_hold, IsPrepared};
ghost use Rattle.ledger_rec.specs.Indexed.{is_queued};
ghost use Rattle.ledger_rec.specs.Items.{entry, receipt, refusal, part_mark, hold};
ghost use Rattle.ledger_rec.specs.Record.{record_of};
ghost use Rattle.ledger_rec.specs.Waiting.{is_waiting};
ghost use Rattle.ledger_rec.specs.declared.fault.FoldFault.TheVariants.{BadFold as BreaksRule, NoMemory as OutOfMemory};

use crate::changes::make_room;
use crate::index::Index;
use crate::items::{Held, InboxItem, MarkItem, QueueItem, RefusedItem};
use crate::lists::Lists;
use crate::rules::{is_queued, is_received, is_refused, is_same};
use crate::steps::add;
use crate::waiting::Need;
use crate::{FoldFault, Record};
use file_index::{Turn, TurnIndex};
use ftn_addr::{Addr, FileKey, NoMemory};
use std::alloc::Global;
use std::marker::Model;

/// The state that the records so far leave, and the senders and keys that are held.
///
/// Ordered indices stand beside its lists, so that folding one more record takes steps in proportion to the
/// logarithm of the items, and to the marks that stand; ending a hold walks the holds. The indices take
/// memory beside the room for records: where there is none, look-ups walk the lists instead.
#[derive(Debug, Drop)]
pub struct Folded {
    pub(crate) lists: Lists,
    /// The live files.
    waiting: TurnIndex,
    /// The files whose source waits for its action.
    acting: TurnIndex,
    holds: Vec<Held>,
    pub(crate) room: u32,
}

impl Model for Folded {
    ghost use Rattle.std.specs.Prelude.{map};
    ghost use Rattle.file_index.specs.Turns.{Turns};
    ghost use Rattle.ledger_rec.specs.Acting.{is_acting};
    ghost use Rattle.ledger_rec.specs.Fold.{Folding};
    ghost use Rattle.ledger_rec.specs.Indexed.{Agrees};
    ghost use Rattle.ledger_rec.specs.Items.{entry, hold};
    ghost use Rattle.ledger_rec.specs.Lists.{state_of, HasRoom};
    ghost use Rattle.ledger_rec.specs.Order.{IsOrderly};
    ghost use Rattle.ledger_rec.specs.Waiting.{is_waiting};

    ghost Value = { Folding };

    ghost view = { λ f. record { state = state_of f.lists; holds = map hold f.holds.items; room = f.room } };

    ghost invariant = { λ f. HasRoom f.room f.lists × Agrees f.lists.index (state_of f.lists) × IsOrderly (state_of f.lists) × Turns f.waiting (is_waiting (map entry f.lists.queue.items)) × Turns f.acting (is_acting (map entry f.lists.queue.items)) };
}

// Where the first hold of the sender and key stands.
fn held_at(from: &Addr, key: &FileKey, holds: &[Held]) -> Option<usize>
    ensures { result ≡ position (λ h. is_same (address from.now) (key_of key.now) (address h.from) (key_of h.key)) holds.now }
{
    holds
        .iter()
        .position(|held| is_same(from, key, &held.from, &held.key))
}

// Ends the first hold of the sender and key.
fn release(from: &Addr, key: &FileKey, holds: &mut Vec<Held>)
    ensures { map hold holds.new.items ≡ without_hold (address from.now) (key_of key.now) (map hold holds.old.items) }
{
    if let Some(i) = held_at(from, key, holds.as_slice()) {
        drop(holds.remove(i));
    }
}

impl Folded {
    /// Nothing folded and nothing held, which takes no memory.
    pub fn new(alloc: Global) -> Folded
        ensures { result ≡ record { state = nothing_folded; holds = []; room = 0 } }
    {
        Folded {
            lists: Lists {
                queue: Vec::new(alloc),
                inbox: Vec::new(alloc),
                refused: Vec::new(alloc),
                marks: Vec::new(alloc),
                parts: Vec::new(alloc),
                takes: Vec::new(alloc),
                index: Index::new(alloc),
            },
            waiting: TurnIndex::new(alloc),
            acting: TurnIndex::new(alloc),
            holds: Vec::new(alloc),
            room: 0,
        }
    }

    /// Folds one more record in. After an error all is as before.
    ///
    /// [`FoldFault::BadFold`] comes exactly where the record breaks a rule of the fold after those before.
    pub fn add(&mut self, alloc: Global, rec: &Record) -> Result<(), FoldFault>
        ensures ok { OnOk result (fold_step self.old.state (record_of rec.now) ≡ Some self.new.state) }
        ensures bad { IsErrOf result BreaksRule → fold_step self.old.state (record_of rec.now) ≡ None }
        ensures err { OnErr result (self.new ≡ self.old) }
        ensures holds { self.new.holds ≡ self.old.holds }
        ensures room { self.old.room ≤ self.new.room + 1 }
    {
        let rec = rec.copy(alloc)?;
        self.add_owned(rec)
    }

    /// Folds one more record in, which is given away. After an error all is as before.
    ///
    /// With room, no record is refused for memory. A record that is folded uses one place.
    pub fn add_owned(&mut self, rec: Record) -> Result<(), FoldFault>
        ensures ok { OnOk result (fold_step self.old.state (record_of rec) ≡ Some self.new.state) }
        ensures bad { IsErrOf result BreaksRule → fold_step self.old.state (record_of rec) ≡ None }
        ensures err { OnErr result (self.new ≡ self.old) }
        ensures holds { self.new.holds ≡ self.old.holds }
        ensures room { self.old.room ≤ self.new.room + 1 }
        ensures within { 0 < self.old.room → IsPrepared (record_of rec) self.old.holds → IsErrOf result OutOfMemory → ⊥ }
        ensures roomy { 0 < self.old.room → IsErrOf result OutOfMemory → ⊥ }
    {
        let waits = Need::Sending.change(&rec);
        let acts = Need::Action.change(&rec);
        add(rec, &mut self.lists)?;
        Need::Sending.note(waits, &self.lists, &mut self.waiting);
        Need::Action.note(acts, &self.lists, &mut self.acting);
        self.room = self.room.saturating_sub(1);
        Ok(())
    }

    /// Makes room for `n` records. Where there is room for as many already, it takes no memory.
    pub fn reserve(&mut self, n: u32) -> Result<(), NoMemory>
        ensures state { self.new.state ≡ self.old.state }
        ensures holds { self.new.holds ≡ self.old.holds }
        ensures ok { OnOk result (n ≤ self.new.room) }
        ensures kept { self.old.room ≤ self.new.room }
        ensures within { n ≤ self.old.room → IsOk result }
        ensures err { OnErr result (self.new ≡ self.old) }
    {
        make_room(&mut self.lists, n as usize)?;
        self.room = self.room.max(n);
        Ok(())
    }

    /// Begins a hold of a sender and key.
    pub fn hold(&mut self, alloc: Global, from: &Addr, key: &FileKey) -> Result<(), NoMemory>
        ensures ok { OnOk result (self.new ≡ record self.old { holds = self.old.holds ++ record { from = address from.now; key = key_of key.now } ∷ [] }) }
        ensures err { OnErr result (self.new ≡ self.old) }
    {
        let held = Held {
            from: from.copy(alloc)?,
            key: key.copy(alloc)?,
        };
        self.holds.push(held)?;
        Ok(())
    }

    /// Ends one hold of a sender and key, where there is one. It takes no memory.
    pub fn unhold(&mut self, from: &Addr, key: &FileKey)
        ensures { self.new ≡ record self.old { holds = without_hold (address from.now) (key_of key.now) self.old.holds } }
    {
        release(from, key, &mut self.holds);
    }

    /// The files queued, rising by number.
    pub fn queue(&self) -> &[QueueItem]
        ensures { map entry result.now ≡ self.now.state.queue }
    {
        self.lists.queue.as_slice()
    }

    /// The first live file for an address behind that turn, or the first of all. It takes no memory.
    pub fn next_waiting(&self, dest: &Addr, after: Option<Turn>) -> Option<Turn>
        ensures { NextTurn (is_waiting self.now.state.queue (address dest.now)) after result }
    {
        Need::Sending.next(&self.waiting, self.lists.queue.as_slice(), dest, after)
    }

    /// The number of the first queued file of an address whose source waits for its action. It takes no memory.
    pub fn next_acting(&self, dest: &Addr) -> Option<u32>
        ensures { NextTurn (is_acting self.now.state.queue (address dest.now)) None (option_map acting_turn result) }
    {
        match Need::Action.next(&self.acting, self.lists.queue.as_slice(), dest, None) {
            Some(turn) => Some(turn.number),
            None => None,
        }
    }

    /// A place in the queue, before which no file has that number: its own, but where memory was wanting. It takes no memory.
    pub fn queue_start(&self, number: u32) -> usize
        ensures within { result ≤ length self.now.state.queue }
        ensures none { is_among number (take result (map (λ e. e.number) self.now.state.queue)) ≡ false }
    {
        self.lists
            .index
            .numbers
            .start(number, self.lists.queue.len())
    }

    /// A place in the inbox, before which no file has that receipt: its own, but where memory was wanting. It takes no memory.
    pub fn inbox_start(&self, receipt: u32) -> usize
        ensures within { result ≤ length self.now.state.inbox }
        ensures none { is_among receipt (take result (map (λ r. r.number) self.now.state.inbox)) ≡ false }
    {
        self.lists
            .index
            .receipts
            .start(receipt, self.lists.inbox.len())
    }

    /// Whether a sender and key are received. It takes no memory.
    pub fn is_received(&self, from: &Addr, key: &FileKey) -> bool
        ensures { result ≡ is_received (address from.now) (key_of key.now) self.now.state.inbox }
    {
        is_received(from, key, &self.lists)
    }

    /// Whether a sender and key are refused. It takes no memory.
    pub fn is_refused(&self, from: &Addr, key: &FileKey) -> bool
        ensures { result ≡ is_refused (address from.now) (key_of key.now) self.now.state.refused }
    {
        is_refused(from, key, &self.lists)
    }

    /// Whether a file of that key was queued for that address. It takes no memory.
    pub fn is_queued(&self, dest: &Addr, key: &FileKey) -> bool
        ensures { result ≡ is_queued (address dest.now) (key_of key.now) self.now.state.queue }
    {
        is_queued(dest, key, &self.lists)
    }

    /// The files received, in the order of their records.
    pub fn inbox(&self) -> &[InboxItem]
        ensures { map receipt result.now ≡ self.now.state.inbox }
    {
        self.lists.inbox.as_slice()
    }

    /// The files refused, in the order of their records.
    pub fn refused(&self) -> &[RefusedItem]
        ensures { map refusal result.now ≡ self.now.state.refused }
    {
        self.lists.refused.as_slice()
    }

    /// The files that came in part, rising by part.
    pub fn marks(&self) -> &[MarkItem]
        ensures { map part_mark result.now ≡ self.now.state.marks }
    {
        self.lists.marks.as_slice()
    }

    /// The numbers of all parts and receipts so far.
    pub fn parts(&self) -> &[u32]
        ensures { result.now ≡ self.now.state.parts }
    {
        self.lists.parts.as_slice()
    }

    /// The takes that are recorded.
    pub fn takes(&self) -> &[u32]
        ensures { result.now ≡ self.now.state.takes }
    {
        self.lists.takes.as_slice()
    }
}
