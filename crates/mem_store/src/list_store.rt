//! A store in memory.
ghost use Rattle.std.specs.Prelude.{◌≡◌, ◌+◌, ◌≤◌, ◌<◌, [], ◌∷◌, ◌++◌, length, OnOk, OnErr, IfErr, Some, IsSome, IsTrue, ◌↔◌, Contains, vec_len, vec_capacity};
ghost use Rattle.node_model.specs.declared.store.StoreFault.TheVariants as F;
ghost use Rattle.node_model.specs.Outside.{put_at};
ghost use Rattle.mem_store.specs.Outsiders.{outside_of, with_file};

use crate::lists::make_room;
use crate::log_record::LogEntry;
use crate::open_part::OpenPart;
use crate::outside::put_file;
use crate::place::Place;
use crate::{GivenFile, OutsideFile, QueuedFile, Received, RefusedFile, StagedFile};
use ftn_addr::{Bytes, NoMemory};
use node_model::StoreFault;
use std::alloc::Global;
use std::marker::Model;

/// A store in memory, which nothing outlives.
///
/// Calls of it can be made to fail as those of a disk do.
#[derive(Debug, Drop)]
pub struct ListStore {
    pub(crate) alloc: Global,
    pub(crate) queue: Vec<QueuedFile>,
    pub(crate) inbox: Vec<Received>,
    pub(crate) refused: Vec<RefusedFile>,
    pub(crate) parts: Vec<OpenPart>,
    pub(crate) staged: Vec<StagedFile>,
    pub(crate) recorded: Vec<u32>,
    pub(crate) log: Vec<LogEntry>,
    pub(crate) outside: Vec<OutsideFile>,
    pub(crate) gifts: Vec<GivenFile>,
    pub(crate) last_given: u32,
    pub(crate) places: Vec<Place>,
    pub(crate) reserved: u32,
    pub(crate) last_staged: u32,
    pub(crate) drawn: u32,
    pub(crate) seat: u32,
    pub(crate) faults: u64,
    pub(crate) fulls: u64,
    pub(crate) broken: Option<u64>,
    pub(crate) calls: u64,
    pub(crate) fails: Vec<u64>,
}

impl Model for ListStore {
    ghost use Rattle.std.specs.Prelude.{◌-◌, length, vec_len, vec_capacity};
    ghost use Rattle.mem_store.specs.ListStates.{ListState};
    ghost use Rattle.mem_store.specs.Orders.{HasRoom, IsOrderly};

    ghost Value = { ListState };

    ghost view = { λ s. record { queue = s.queue.items; inbox = s.inbox.items; refused = s.refused.items; parts = s.parts.items; staged = s.staged.items; recorded = s.recorded.items; log = s.log.items; outside = s.outside.items; gifts = s.gifts.items; last_given = s.last_given; reserved = s.reserved; last_staged = s.last_staged; drawn = s.drawn; seat = s.seat; counts = record { faults = s.faults; fulls = s.fulls; broken = s.broken }; calls = s.calls; fails = s.fails.items } };

    ghost invariant = { λ s. IsOrderly s.queue.items s.inbox.items s.parts.items s.drawn × HasRoom (length s.parts.items) s.reserved (vec_capacity s.inbox - vec_len s.inbox) (vec_capacity s.log - vec_len s.log) (vec_len s.places) };
}

impl ListStore {
    ghost use Rattle.mem_store.specs.ListStates.{nothing_listed, one_more, called, failed_in_call, broken_in_call, found_full, stand_of};

    /// A store with nothing in it, which takes no memory.
    pub fn new(alloc: Global) -> ListStore
        ensures empty { result ≡ nothing_listed }
        ensures tells { IsSome (stand_of result).state.content }
    {
        ListStore {
            alloc,
            queue: Vec::new(alloc),
            inbox: Vec::new(alloc),
            refused: Vec::new(alloc),
            parts: Vec::new(alloc),
            staged: Vec::new(alloc),
            recorded: Vec::new(alloc),
            log: Vec::new(alloc),
            outside: Vec::new(alloc),
            gifts: Vec::new(alloc),
            last_given: 0,
            places: Vec::new(alloc),
            reserved: 0,
            last_staged: 0,
            drawn: 0,
            seat: 0,
            faults: 0,
            fulls: 0,
            broken: None,
            calls: 0,
            fails: Vec::new(alloc),
        }
    }

    /// Lets the call with that number fail, and change nothing but the counts: it answers [`StoreFault::Disk`], and
    /// `read_source` answers [`StoreFault::Read`]. All calls that may answer so are counted, from 1.
    pub fn fail_at(&mut self, call: u64) -> Result<(), NoMemory>
        ensures ok { OnOk result (self.new ≡ record self.old { fails = self.old.fails ++ call ∷ [] }) }
        ensures err { OnErr result (self.new ≡ self.old) }
    {
        self.fails.push(call)?;
        Ok(())
    }

    /// Puts a file of another program under a path, in place of one that stands there.
    pub fn put_out(&mut self, path: &Bytes, bytes: &[u8], time: u64) -> Result<(), NoMemory>
        ensures ok { OnOk result (self.new ≡ record self.old { outside = with_file (record { path = path.now.list; file = record { bytes = bytes.now; time = time } }) self.old.outside }) }
        ensures told { OnOk result (outside_of self.new.outside ≡ put_at path.now.list (Some (record { bytes = bytes.now; time = time })) (outside_of self.old.outside)) }
        ensures err { OnErr result (self.new ≡ self.old) }
    {
        let file = OutsideFile::new(self.alloc, path, bytes, time)?;
        make_room(1, &mut self.outside)?;
        put_file(file, &mut self.outside);
        Ok(())
    }

    /// The files of other programs, each under its path.
    pub fn outside(&self) -> &[OutsideFile]
        ensures { result.now ≡ self.now.outside }
    {
        self.outside.as_slice()
    }

    /// The files given away, in order.
    pub fn gifts(&self) -> &[GivenFile]
        ensures { result.now ≡ self.now.gifts }
    {
        self.gifts.as_slice()
    }

    /// The files queued, in order, settled ones too.
    pub fn entries(&self) -> &[QueuedFile]
        ensures { result.now ≡ self.now.queue }
    {
        self.queue.as_slice()
    }

    /// The files received, in order.
    pub fn receipts(&self) -> &[Received]
        ensures { result.now ≡ self.now.inbox }
    {
        self.inbox.as_slice()
    }

    /// The files refused, in order.
    pub fn refusals(&self) -> &[RefusedFile]
        ensures { result.now ≡ self.now.refused }
    {
        self.refused.as_slice()
    }

    /// The files staged and not queued, in order.
    pub fn staged(&self) -> &[StagedFile]
        ensures { result.now ≡ self.now.staged }
    {
        self.staged.as_slice()
    }

    /// The takes recorded, in order.
    pub fn takes(&self) -> &[u32]
        ensures { result.now ≡ self.now.recorded }
    {
        self.recorded.as_slice()
    }

    /// The records, in order.
    pub fn records(&self) -> &[LogEntry]
        ensures { result.now ≡ self.now.log }
    {
        self.log.as_slice()
    }

    /// How many places are reserved.
    pub fn reserved(&self) -> u32
        ensures { result ≡ self.now.reserved }
    {
        self.reserved
    }

    // Counts a call, and tells whether it is one of those that are to fail.
    fn fails_now(&mut self) -> bool
        ensures after { self.new ≡ called self.old }
        ensures fails { IsTrue result ↔ Contains self.old.fails (one_more self.old.calls) }
    {
        self.calls = self.calls.saturating_add(1);
        self.fails.contains(&self.calls)
    }

    // Counts a call, which fails where its number is one of those that are to fail.
    pub(crate) fn count_call(&mut self) -> Result<(), StoreFault>
        ensures ok { OnOk result (self.new ≡ called self.old) }
        ensures err { OnErr result (self.new ≡ broken_in_call self.old) }
        ensures only_disk { IfErr result (λ fault. fault ≡ F.Disk) }
        ensures ok_as_set { OnOk result (¬ Contains self.old.fails (one_more self.old.calls)) }
        ensures err_as_set { OnErr result (Contains self.old.fails (one_more self.old.calls)) }
    {
        if !self.fails_now() {
            return Ok(());
        }
        self.faults = self.faults.saturating_add(1);
        self.broken = Some(self.faults);
        Err(StoreFault::Disk)
    }

    // Counts a read, which fails likewise and breaks nothing.
    pub(crate) fn count_read(&mut self) -> Result<(), StoreFault>
        ensures ok { OnOk result (self.new ≡ called self.old) }
        ensures err { OnErr result (self.new ≡ failed_in_call self.old) }
        ensures only_read { IfErr result (λ fault. fault ≡ F.Read) }
        ensures ok_as_set { OnOk result (¬ Contains self.old.fails (one_more self.old.calls)) }
        ensures err_as_set { OnErr result (Contains self.old.fails (one_more self.old.calls)) }
    {
        if !self.fails_now() {
            return Ok(());
        }
        self.faults = self.faults.saturating_add(1);
        Err(StoreFault::Read)
    }

    // Counts an answer `Full`.
    pub(crate) fn find_full(&mut self) -> StoreFault
        ensures full { result ≡ F.Full }
        ensures after { self.new ≡ found_full self.old }
    {
        self.fulls = self.fulls.saturating_add(1);
        StoreFault::Full
    }
}
