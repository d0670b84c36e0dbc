//! The store that takes outbound files in, as a store: each call is that of the store on a disk.
ghost use Rattle.std.specs.Prelude.{◌≡◌};
ghost use Rattle.node_store.specs.Stored.{stand_of};
ghost use Rattle.node_store.specs.Tied.{tied};

use crate::TakingStore;
use disk_model::Yard;
use ftn_addr::{Addr, Bytes, FileKey};
use node_model::{Gave, Known, LivePlace, NewFile, PartAt, Slot, Staged, Store, StoreFault};
use std::alloc::Global;

impl<D: Yard> Store for TakingStore<D> {
    ghost stand = { λ s. stand_of D.tells D.content D.fault_count D.moment D.images s.store };

    fn faults(&self) -> u64 {
        self.store.faults()
    }

    fn fulls(&self) -> u64 {
        self.store.fulls()
    }

    fn broken(&self) -> Option<u64> {
        self.store.broken()
    }

    fn appended(&self) -> u64 {
        self.store.appended()
    }

    fn known(&self, from: &Addr, key: &FileKey) -> Known {
        self.store.known(from, key)
    }

    fn mark_of(&self, from: &Addr, key: &FileKey) -> Option<PartAt> {
        self.store.mark_of(from, key)
    }

    fn next_live(&self, dest: &Addr, after: Option<LivePlace>) -> Option<LivePlace> {
        self.store.next_live(dest, after)
    }

    fn key_of(&self, number: u32) -> &FileKey {
        self.store.key_of(number)
    }

    fn by(&mut self, seat: u32) {
        self.store.by(seat);
    }

    fn stage(&mut self, _alloc: Global, bytes: &[u8]) -> Result<u32, StoreFault> {
        self.store.stage(bytes)
    }

    fn stage_copy(&mut self, _alloc: Global, path: &Bytes) -> Result<Staged, StoreFault> {
        self.store.stage_copy(path)
    }

    fn queue_all(
        &mut self,
        alloc: Global,
        take: Option<u32>,
        answered: Option<u32>,
        files: &[NewFile],
    ) -> Result<Vec<Slot>, StoreFault> {
        self.store.queue_all(alloc, take, answered, files)
    }

    fn done(&mut self, number: u32, session: u32) -> Result<(), StoreFault> {
        self.store.done(number, session)
    }

    fn refuse(
        &mut self,
        alloc: Global,
        from: &Addr,
        key: &FileKey,
        session: u32,
        reason: u8,
    ) -> Result<(), StoreFault> {
        self.store.refuse(alloc, from, key, session, reason)
    }

    fn part_open(
        &mut self,
        alloc: Global,
        from: &Addr,
        key: &FileKey,
    ) -> Result<PartAt, StoreFault> {
        self.store.part_open(alloc, from, key)
    }

    fn part_put(&mut self, part: u32, bytes: &[u8]) -> Result<(), StoreFault> {
        self.store.part_put(part, bytes)
    }

    fn part_mark(&mut self, part: u32) -> Result<(), StoreFault> {
        self.store.part_mark(part)
    }

    fn commit(&mut self, part: u32, session: u32, secure: bool) -> Result<(), StoreFault> {
        self.store.commit(part, session, secure)
    }

    fn read_source(&mut self, number: u32, at: u64, out: &mut [u8]) -> Result<usize, StoreFault> {
        self.store.read_source(number, at, out)
    }

    fn part_read(&mut self, receipt: u32, at: u64, out: &mut [u8]) -> Result<usize, StoreFault> {
        self.store.part_read(receipt, at, out)
    }

    fn give_next(
        &mut self,
        alloc: Global,
        inbound: &Bytes,
        nonsecure: &Bytes,
    ) -> Result<Gave, StoreFault> {
        self.store.give_next(alloc, inbound, nonsecure)
    }

    fn act_next(&mut self, _alloc: Global, dest: &Addr) -> Result<Option<u32>, StoreFault> {
        self.store.act_next(dest)
    }

    fn reserve(&mut self, places: u32) -> Result<(), StoreFault> {
        self.store.reserve(places)
    }

    fn release(&mut self, places: u32) {
        self.store.release(places);
    }

    ghost tied = { λ s. tied D.tells (D.content s.store.disk) (D.fault_count s.store.disk) s.store.memory };
}
