//! The store on a disk as a store: each call is the one of [`NodeStore`] under its name.
ghost use Rattle.std.specs.Prelude.{◌≡◌};
ghost use Rattle.node_store.specs.Stored.{stand_of};
ghost use Rattle.node_store.specs.Tied.{tied};

use crate::NodeStore;
use disk_model::Yard;
use ftn_addr::{Addr, Bytes, FileKey};
use node_model::{Gave, Known, LivePlace, NewFile, PartAt, Slot, Staged, Store, StoreFault};
use std::alloc::Global;

impl<D: Yard> Store for NodeStore<D> {
    ghost stand = { λ s. stand_of D.tells D.content D.fault_count D.moment D.images s };

    fn faults(&self) -> u64 {
        NodeStore::faults(self)
    }

    fn fulls(&self) -> u64 {
        NodeStore::fulls(self)
    }

    fn broken(&self) -> Option<u64> {
        NodeStore::broken(self)
    }

    fn appended(&self) -> u64 {
        NodeStore::appended(self)
    }

    fn known(&self, from: &Addr, key: &FileKey) -> Known {
        NodeStore::known(self, from, key)
    }

    fn mark_of(&self, from: &Addr, key: &FileKey) -> Option<PartAt> {
        NodeStore::mark_of(self, from, key)
    }

    fn next_live(&self, dest: &Addr, after: Option<LivePlace>) -> Option<LivePlace> {
        NodeStore::next_live(self, dest, after)
    }

    fn key_of(&self, number: u32) -> &FileKey {
        NodeStore::key_of(self, number)
    }

    fn by(&mut self, seat: u32) {
        NodeStore::by(self, seat);
    }

    fn stage(&mut self, _alloc: Global, bytes: &[u8]) -> Result<u32, StoreFault> {
        NodeStore::stage(self, bytes)
    }

    fn stage_copy(&mut self, _alloc: Global, path: &Bytes) -> Result<Staged, StoreFault> {
        NodeStore::stage_copy(self, path)
    }

    fn queue_all(
        &mut self,
        alloc: Global,
        take: Option<u32>,
        answered: Option<u32>,
        files: &[NewFile],
    ) -> Result<Vec<Slot>, StoreFault> {
        NodeStore::queue_all(self, alloc, take, answered, files)
    }

    fn done(&mut self, number: u32, session: u32) -> Result<(), StoreFault> {
        NodeStore::done(self, number, session)
    }

    fn refuse(
        &mut self,
        alloc: Global,
        from: &Addr,
        key: &FileKey,
        session: u32,
        reason: u8,
    ) -> Result<(), StoreFault> {
        NodeStore::refuse(self, alloc, from, key, session, reason)
    }

    fn part_open(
        &mut self,
        alloc: Global,
        from: &Addr,
        key: &FileKey,
    ) -> Result<PartAt, StoreFault> {
        NodeStore::part_open(self, alloc, from, key)
    }

    fn part_put(&mut self, part: u32, bytes: &[u8]) -> Result<(), StoreFault> {
        NodeStore::part_put(self, part, bytes)
    }

    fn part_mark(&mut self, part: u32) -> Result<(), StoreFault> {
        NodeStore::part_mark(self, part)
    }

    fn commit(&mut self, part: u32, session: u32, secure: bool) -> Result<(), StoreFault> {
        NodeStore::commit(self, part, session, secure)
    }

    fn read_source(&mut self, number: u32, at: u64, out: &mut [u8]) -> Result<usize, StoreFault> {
        NodeStore::read_source(self, number, at, out)
    }

    fn part_read(&mut self, receipt: u32, at: u64, out: &mut [u8]) -> Result<usize, StoreFault> {
        NodeStore::part_read(self, receipt, at, out)
    }

    fn give_next(
        &mut self,
        alloc: Global,
        inbound: &Bytes,
        nonsecure: &Bytes,
    ) -> Result<Gave, StoreFault> {
        NodeStore::give_next(self, alloc, inbound, nonsecure)
    }

    fn act_next(&mut self, _alloc: Global, dest: &Addr) -> Result<Option<u32>, StoreFault> {
        NodeStore::act_next(self, dest)
    }

    fn reserve(&mut self, places: u32) -> Result<(), StoreFault> {
        NodeStore::reserve(self, places)
    }

    fn release(&mut self, places: u32) {
        NodeStore::release(self, places);
    }

    ghost tied = { λ s. tied D.tells (D.content s.disk) (D.fault_count s.disk) s.memory };
}
