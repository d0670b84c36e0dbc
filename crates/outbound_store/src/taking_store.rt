//! The store on a disk, as a take-in asks for it.
ghost use Rattle.std.specs.Prelude.{◌≡◌, None, option_map};
ghost use Rattle.node_store.specs.Stored.{stand_of};
ghost use Rattle.outbound_take.specs.Stand.{IsCalm};
ghost use Rattle.outbound_store.specs.Calls.{CallOf, NowIsTold, want_in};
ghost use Rattle.outbound_store.specs.Held.{seen_on};
ghost use Rattle.take_steps.specs.Steps.{fault_of};

use crate::left::first_left;
use crate::own::{has_place, take_kind};
use crate::reading::read_whole;
use bso_outbound::Kind;
use disk_model::{Marking, Moved, Name, Yard};
use ftn_addr::{Addr, Bytes};
use node_model::{NewFile, OutStat, Slot, Staged, StoreFault};
use node_store::{MarkKind, NodeStore, mark_file, take_file, take_number};
use outbound_take::{Outgoing, TakeLeft};
use std::alloc::Global;
use take_steps::Wanting;

// What was wanted, where a call is answered so.
fn want_in<T>(answer: &Result<T, StoreFault>) -> Option<Wanting>
    ensures { result ≡ want_in answer.now }
{
    match answer {
        Err(StoreFault::Full) => Some(Wanting::Places),
        Err(StoreFault::NoMemory) => Some(Wanting::Memory),
        _ => None,
    }
}

/// A store on a disk that takes outbound files in.
///
/// A broken store, which has to be opened again, shows no takes. Where a call found no place or no memory, that is noted, and every
/// later call is refused for the same, but for those on marks.
#[derive(Drop)]
pub struct TakingStore<D: Yard> {
    pub store: NodeStore<D>,
    wanting: Option<Wanting>,
}

impl<D: Yard> TakingStore<D> {
    /// That store.
    pub fn new(store: NodeStore<D>) -> TakingStore<D>
        ensures store { result.store ≡ store }
        ensures wanting { result.wanting ≡ None }
    {
        TakingStore {
            store,
            wanting: None,
        }
    }

    /// The store.
    pub fn store(&self) -> &NodeStore<D>
        ensures { result.now ≡ self.now.store }
    {
        &self.store
    }

    /// What a call found no more of, if one did.
    pub fn wanting(&self) -> Option<Wanting>
        ensures { result ≡ self.now.wanting }
    {
        self.wanting
    }

    /// Forgets what was wanted: the next take-in begins.
    pub fn begin_anew(&mut self)
        ensures store { self.new.store ≡ self.old.store }
        ensures wanting { self.new.wanting ≡ None }
    {
        self.wanting = None;
    }

    // With what a call is refused, where something was wanted before.
    fn refusal(&self) -> Option<StoreFault>
        requires { self.now.store.memory.broken ≡ None }
        ensures is { result ≡ option_map fault_of self.now.wanting }
        ensures told { NowIsTold (stand_of D.tells D.content D.fault_count D.moment D.images self.now.store) }
    {
        self.store.now_is_told();
        match self.wanting {
            Some(Wanting::Places) => Some(StoreFault::Full),
            Some(Wanting::Memory) => Some(StoreFault::NoMemory),
            None => None,
        }
    }

    /// What a stop now may leave of a whole store is what it tells. It does nothing.
    pub fn now_is_told(&self)
        requires { self.now.store.memory.broken ≡ None }
        ensures { IsCalm (seen_on D.tells D.content D.fault_count D.moment D.images self.now.store) }
    {
        self.store.now_is_told();
    }

    /// The store, for other calls than a take-in's.
    pub fn into_store(self) -> NodeStore<D>
        ensures { result ≡ self.store }
    {
        self.store
    }
}

// `takes_left`, `numbers_are_drawn` and `opens_as_told` are called for what they say of the store: they do nothing.
impl<D: Yard> Outgoing for TakingStore<D> {
    ghost stand = { λ s. seen_on D.tells D.content D.fault_count D.moment D.images s.store };

    ghost rule = { λ s t. CallOf (stand_of D.tells D.content D.fault_count D.moment D.images s.store) s.wanting (stand_of D.tells D.content D.fault_count D.moment D.images t.store) t.wanting };

    fn first_left(&self, dest: &Addr, above: Option<u32>) -> Option<TakeLeft> {
        match self.store.broken() {
            Some(_) => None,
            None => first_left(dest, above, self.store.takes_left()),
        }
    }

    fn own_name(&self, take: u32, dest: &Addr, kind: Kind) -> Name {
        has_place(dest);
        take_file(take, dest, take_kind(kind))
    }

    fn names(&mut self, folder: &Bytes) -> Result<Vec<Bytes>, StoreFault> {
        if let Some(fault) = self.refusal() {
            return Err(fault);
        }
        let names = self.store.names(folder);
        self.wanting = want_in(&names);
        names
    }

    fn look(&mut self, path: &Bytes) -> Result<Option<OutStat>, StoreFault> {
        if let Some(fault) = self.refusal() {
            return Err(fault);
        }
        match self.store.look(path) {
            Ok(Some(stat)) => {
                let disk_model::OutStat { size, time } = stat;
                Ok(Some(OutStat { size, time }))
            }
            Ok(None) => Ok(None),
            Err(fault) => Err(fault),
        }
    }

    fn next_take(&mut self) -> Result<u32, StoreFault> {
        if let Some(fault) = self.refusal() {
            return Err(fault);
        }
        let take = self.store.next_take();
        self.wanting = want_in(&take);
        take
    }

    fn take_file(&mut self, path: &Bytes, own: &Name) -> Result<Moved, StoreFault> {
        if let Some(fault) = self.refusal() {
            return Err(fault);
        }
        self.store.takes_left();
        match take_number(own) {
            Some(_) => self.store.take_file(path, own),
            // A name can spell the number that was drawn and still not be a take's: an opening wouldn't find the file. No place is wanted.
            None => Err(StoreFault::Full),
        }
    }

    fn read_take(&mut self, alloc: Global, own: &Name) -> Result<Bytes, StoreFault> {
        if let Some(fault) = self.refusal() {
            return Err(fault);
        }
        self.store.takes_left();
        let bytes = read_whole(&mut self.store, alloc, own);
        self.wanting = want_in(&bytes);
        bytes
    }

    fn stage_copy(&mut self, path: &Bytes) -> Result<Staged, StoreFault> {
        if let Some(fault) = self.refusal() {
            return Err(fault);
        }
        self.store.numbers_are_drawn();
        let staged = self.store.stage_copy(path);
        self.wanting = want_in(&staged);
        staged
    }

    fn stage_own(&mut self, own: &Name) -> Result<(u32, u64), StoreFault> {
        if let Some(fault) = self.refusal() {
            return Err(fault);
        }
        self.store.takes_left();
        self.store.numbers_are_drawn();
        let staged = self.store.stage_own(own);
        self.wanting = want_in(&staged);
        staged
    }

    fn queue_all(
        &mut self,
        alloc: Global,
        own: &Name,
        files: &[NewFile],
    ) -> Result<Vec<Slot>, StoreFault> {
        if let Some(fault) = self.refusal() {
            return Err(fault);
        }
        self.store.takes_left();
        let slots = self.store.queue_all(alloc, take_number(own), None, files);
        self.wanting = want_in(&slots);
        slots
    }

    fn finish_take(&mut self, own: &Name) -> Result<(), StoreFault> {
        if let Some(fault) = self.refusal() {
            return Err(fault);
        }
        self.store.takes_left();
        self.store.finish_take(own)
    }

    fn act_next(&mut self, dest: &Addr) -> Result<Option<u32>, StoreFault> {
        if let Some(fault) = self.refusal() {
            return Err(fault);
        }
        self.store.opens_as_told();
        let acted = self.store.act_next(dest);
        self.wanting = want_in(&acted);
        acted
    }

    fn mark(&mut self, addr: &Addr, path: &Bytes, text: &Bytes) -> Result<Marking, StoreFault> {
        let own = mark_file(addr, MarkKind::Busy);
        self.store.mark(path, &own, text)
    }

    fn unmark(&mut self, addr: &Addr, path: &Bytes, text: &Bytes) -> Result<(), StoreFault> {
        let own = mark_file(addr, MarkKind::Busy);
        self.store.unmark(path, &own, text)
    }

    fn tied(&self) {
        self.store.takes_left();
    }
}
