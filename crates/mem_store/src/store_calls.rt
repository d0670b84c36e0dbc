//! The calls of a store.
ghost use Rattle.std.specs.Prelude.{◌≡◌, ◌≢◌, ◌<◌, ◌≤◌, ◌-◌, min, length, map, IfOk, MatchResult, None};
ghost use Rattle.ftn_addr.specs.Address.{address};
ghost use Rattle.ftn_addr.specs.Key.{key_of as key_in};
ghost use Rattle.ftn_addr.specs.Limits.{IsAddress, IsKey};
ghost use Rattle.node_model.specs.declared.words.Known.TheVariants as K;
ghost use Rattle.node_model.specs.Stocks.{known_in};
ghost use Rattle.node_model.specs.StoreWords.{IsNewBatch, IsReason, entry_of, slot_of, size_of_entry, size_of_receipt};
ghost use Rattle.node_model.specs.Stores.{StoreKept, IsLive, IsKept, IsOpen, IsWhole, Stage, Queue_all, Settle, Refuse_file, Part_open, Part_put, Part_mark, Commit, Read_source, Read_part, Reserve, Stage_copy, Give_next, Act_next, Slots, Refuses, Well, act_answer, copy_answer, give_answer, open_answer, read_answer, staged_answer, well_answer};
ghost use Rattle.mem_store.specs.Told.{tied};
ghost use Rattle.mem_store.specs.ListStates.{FailsAsSet, ReadFailsAsSet, stand_of};

use crate::acting::next_action;
use crate::giving::plan_gift;
use crate::lists::{add, copy_from, make_room, put, put_all};
use crate::log_record::{LogRecord, append, refusal_record};
use crate::open_part::{OpenPart, close_file, open_again, place_of_file, place_of_part};
use crate::outside::{place_of_path, put_file};
use crate::place::{make_places, take_place};
use crate::plan::{Plan, answer, note_take, plan_all, record_answer, record_take, unstage};
use crate::queued::{next_of, place_of_entry};
use crate::received::{is_received, next_given, place_of_receipt};
use crate::refused::is_refused;
use crate::{ListStore, RefusedFile, StagedFile};
use ftn_addr::{Addr, Bytes, FileKey, MAX_NUMBER, MAX_SIZE};
use node_model::{
    Gave, Known, LivePlace, MOST_RECORDS, NewFile, PartAt, Slot, Staged, Store, StoreFault,
};
use std::alloc::Global;

impl Store for ListStore {
    ghost stand = { stand_of };

    fn faults(&self) -> u64 {
        self.faults
    }

    fn fulls(&self) -> u64 {
        self.fulls
    }

    fn broken(&self) -> Option<u64> {
        self.broken
    }

    fn appended(&self) -> u64 {
        self.log.len() as u64
    }

    fn known(&self, from: &Addr, key: &FileKey) -> Known {
        if is_received(from, key, self.inbox.as_slice()) {
            Known::Received
        } else if is_refused(from, key, self.refused.as_slice()) {
            Known::Refused
        } else {
            Known::New
        }
    }

    fn mark_of(&self, from: &Addr, key: &FileKey) -> Option<PartAt> {
        match place_of_file(self.parts.as_slice(), from, key) {
            Some(place) => self.parts[place].mark(),
            None => None,
        }
    }

    fn next_live(&self, dest: &Addr, after: Option<LivePlace>) -> Option<LivePlace> {
        next_of(self.queue.as_slice(), dest, after)
    }

    fn key_of(&self, number: u32) -> &FileKey {
        let place = place_of_entry(self.queue.as_slice(), number);
        self.queue[place].key()
    }

    fn by(&mut self, seat: u32) {
        self.seat = seat;
    }

    fn stage(&mut self, alloc: Global, bytes: &[u8]) -> Result<u32, StoreFault>
        requires { (stand_of self.old).state.counts.broken ≡ None }
        ensures kept { StoreKept (stand_of self.old) (Stage bytes.now) (staged_answer result) (stand_of self.new) }
        ensures fails { FailsAsSet result self.old self.new }
    {
        self.count_call()?;
        if self.last_staged == MAX_NUMBER {
            return Err(self.find_full());
        }
        let number = self.last_staged + 1;
        let file = StagedFile::new(alloc, number, bytes)?;
        add(file, &mut self.staged)?;
        self.last_staged = number;
        Ok(number)
    }

    fn stage_copy(&mut self, alloc: Global, path: &Bytes) -> Result<Staged, StoreFault>
        requires { (stand_of self.old).state.counts.broken ≡ None }
        ensures kept { StoreKept (stand_of self.old) (Stage_copy path.now.list) (copy_answer result) (stand_of self.new) }
        ensures fails { FailsAsSet result self.old self.new }
    {
        self.count_call()?;
        if self.last_staged == MAX_NUMBER {
            return Err(self.find_full());
        }
        let number = self.last_staged + 1;
        let Some(place) = place_of_path(self.outside.as_slice(), path.as_slice()) else {
            return Ok(Staged::Absent);
        };
        let stat = self.outside[place].stat();
        if stat.size > MAX_SIZE {
            return Ok(Staged::Over);
        }
        let copy = StagedFile::new(alloc, number, self.outside[place].content())?;
        add(copy, &mut self.staged)?;
        self.last_staged = number;
        Ok(Staged::Copied(number, stat))
    }

    fn queue_all(
        &mut self,
        alloc: Global,
        take: Option<u32>,
        answered: Option<u32>,
        files: &[NewFile],
    ) -> Result<Vec<Slot>, StoreFault>
        requires whole { (stand_of self.old).state.counts.broken ≡ None }
        requires batch { IsNewBatch take answered (map entry_of files.now) (stand_of self.old).state }
        ensures kept { MatchResult result (λ slots. StoreKept (stand_of self.old) (Queue_all take answered (map entry_of files.now)) (Slots (map slot_of slots.items)) (stand_of self.new)) (λ fault. StoreKept (stand_of self.old) (Queue_all take answered (map entry_of files.now)) (Refuses fault) (stand_of self.new)) }
        ensures fails { FailsAsSet result self.old self.new }
    {
        self.count_call()?;
        let (queue, staged) = (self.queue.as_slice(), self.staged.as_slice());
        let Plan {
            slots,
            mut fresh,
            mut records,
        } = plan_all(alloc, self.seat, files, queue, staged)?;
        record_take(self.seat, take, &mut records)?;
        record_answer(self.seat, answered, &mut records)?;
        let held = self.log.len() as u64 + u64::from(self.reserved);
        if held + records.len() as u64 > u64::from(MOST_RECORDS) {
            return Err(self.find_full());
        }
        make_room(fresh.len(), &mut self.queue)?;
        make_room(1, &mut self.recorded)?;
        make_room(records.len() + self.reserved as usize, &mut self.log)?;
        put_all(&mut fresh, &mut self.queue);
        put_all(&mut records, &mut self.log);
        note_take(take, &mut self.recorded);
        answer(answered, &mut self.inbox);
        unstage(files, &mut self.staged);
        Ok(slots)
    }

    fn done(&mut self, number: u32, session: u32) -> Result<(), StoreFault>
        requires whole { (stand_of self.old).state.counts.broken ≡ None }
        requires live { IsLive number (stand_of self.old).state }
        requires place { 0 < (stand_of self.old).state.reserved }
        requires session { session ≢ 0 }
        ensures kept { StoreKept (stand_of self.old) (Settle number session) (well_answer result) (stand_of self.new) }
        ensures fails { FailsAsSet result self.old self.new }
    {
        self.count_call()?;
        let place = place_of_entry(self.queue.as_slice(), number);
        self.queue[place].settle();
        append(
            self.seat,
            LogRecord::Done { number, session },
            &mut self.log,
        );
        self.reserved -= 1;
        Ok(())
    }

    fn refuse(
        &mut self,
        alloc: Global,
        from: &Addr,
        key: &FileKey,
        session: u32,
        reason: u8,
    ) -> Result<(), StoreFault>
        requires whole { (stand_of self.old).state.counts.broken ≡ None }
        requires address_limits { IsAddress (address from.now) }
        requires key_limits { IsKey (key_in key.now) }
        requires unknown { known_in (address from.now) (key_in key.now) (stand_of self.old).state.stock.state ≡ K.New }
        requires place { 0 < (stand_of self.old).state.reserved }
        requires session { session ≢ 0 }
        requires reason { IsReason reason }
        ensures kept { StoreKept (stand_of self.old) (Refuse_file (address from.now) (key_in key.now) session reason) (well_answer result) (stand_of self.new) }
        ensures fails { FailsAsSet result self.old self.new }
    {
        self.count_call()?;
        make_room(1, &mut self.refused)?;
        let file = RefusedFile::new(alloc, from, key)?;
        let record = refusal_record(alloc, from, key, session, reason)?;
        put(file, &mut self.refused);
        close_file(from, key, &mut self.parts);
        append(self.seat, record, &mut self.log);
        self.reserved -= 1;
        Ok(())
    }

    fn part_open(&mut self, alloc: Global, from: &Addr, key: &FileKey) -> Result<PartAt, StoreFault>
        requires whole { (stand_of self.old).state.counts.broken ≡ None }
        requires address_limits { IsAddress (address from.now) }
        requires key_limits { IsKey (key_in key.now) }
        requires unknown { known_in (address from.now) (key_in key.now) (stand_of self.old).state.stock.state ≡ K.New }
        ensures kept { StoreKept (stand_of self.old) (Part_open (address from.now) (key_in key.now)) (open_answer result) (stand_of self.new) }
        ensures fails { FailsAsSet result self.old self.new }
    {
        self.count_call()?;
        if let Some(place) = place_of_file(self.parts.as_slice(), from, key) {
            return Ok(open_again(&mut self.parts, place));
        }
        if self.drawn == MAX_NUMBER {
            return Err(self.find_full());
        }
        let number = self.drawn + 1;
        let part = OpenPart::new(alloc, number, from, key)?;
        make_room(self.parts.len() + 1, &mut self.inbox)?;
        add(part, &mut self.parts)?;
        self.drawn = number;
        Ok(PartAt {
            part: number,
            len: 0,
        })
    }

    fn part_put(&mut self, part: u32, bytes: &[u8]) -> Result<(), StoreFault>
        requires whole { (stand_of self.old).state.counts.broken ≡ None }
        requires fits { IsOpen part (length bytes.now) (stand_of self.old).state }
        ensures kept { StoreKept (stand_of self.old) (Part_put part bytes.now) (well_answer result) (stand_of self.new) }
        ensures fails { FailsAsSet result self.old self.new }
    {
        self.count_call()?;
        let place = place_of_part(self.parts.as_slice(), part);
        self.parts[place].put(bytes);
        Ok(())
    }

    fn part_mark(&mut self, part: u32) -> Result<(), StoreFault>
        requires whole { (stand_of self.old).state.counts.broken ≡ None }
        requires is_open { IsOpen part 0 (stand_of self.old).state }
        requires place { 0 < (stand_of self.old).state.reserved }
        ensures kept { StoreKept (stand_of self.old) (Part_mark part) (well_answer result) (stand_of self.new) }
        ensures fails { FailsAsSet result self.old self.new }
    {
        self.count_call()?;
        let place = place_of_part(self.parts.as_slice(), part);
        if !self.parts[place].is_ahead() {
            return Ok(());
        }
        let room = take_place(&mut self.places);
        let record = self.parts[place].put_mark(room);
        append(self.seat, record, &mut self.log);
        self.reserved -= 1;
        Ok(())
    }

    fn commit(&mut self, part: u32, session: u32, secure: bool) -> Result<(), StoreFault>
        requires whole { (stand_of self.old).state.counts.broken ≡ None }
        requires all { IsWhole part (stand_of self.old).state }
        requires place { 0 < (stand_of self.old).state.reserved }
        requires session { session ≢ 0 }
        ensures kept { StoreKept (stand_of self.old) (Commit part session secure) (well_answer result) (stand_of self.new) }
        ensures fails { FailsAsSet result self.old self.new }
    {
        self.count_call()?;
        let place = place_of_part(self.parts.as_slice(), part);
        let part = self.parts.remove(place);
        let record = part.receipt_record(take_place(&mut self.places), session, secure);
        put(part.receive(secure), &mut self.inbox);
        append(self.seat, record, &mut self.log);
        self.reserved -= 1;
        Ok(())
    }

    fn read_source(&mut self, number: u32, at: u64, out: &mut [u8]) -> Result<usize, StoreFault>
        requires whole { (stand_of self.old).state.counts.broken ≡ None }
        requires live { IsLive number (stand_of self.old).state }
        ensures kept { StoreKept (stand_of self.old) (Read_source number at (length out.old)) (read_answer out.new result) (stand_of self.new) }
        ensures length { IfOk result (λ count. count ≡ min (length out.old) (size_of_entry number (stand_of self.old).state.stock.state.queue - at)) }
        ensures fails { ReadFailsAsSet result self.old self.new }
    {
        self.count_read()?;
        let place = place_of_entry(self.queue.as_slice(), number);
        Ok(copy_from(self.queue[place].content(), at, out))
    }

    fn part_read(&mut self, receipt: u32, at: u64, out: &mut [u8]) -> Result<usize, StoreFault>
        requires whole { (stand_of self.old).state.counts.broken ≡ None }
        requires kept { IsKept receipt (stand_of self.old).state }
        ensures kept { StoreKept (stand_of self.old) (Read_part receipt at (length out.old)) (read_answer out.new result) (stand_of self.new) }
        ensures length { IfOk result (λ count. count ≡ min (length out.old) (size_of_receipt receipt (stand_of self.old).state.stock.state.inbox - at)) }
        ensures fails { FailsAsSet result self.old self.new }
    {
        self.count_call()?;
        let place = place_of_receipt(self.inbox.as_slice(), receipt);
        Ok(copy_from(self.inbox[place].content(), at, out))
    }

    fn give_next(
        &mut self,
        alloc: Global,
        inbound: &Bytes,
        nonsecure: &Bytes,
    ) -> Result<Gave, StoreFault>
        requires { (stand_of self.old).state.counts.broken ≡ None }
        ensures kept { StoreKept (stand_of self.old) (Give_next inbound.now.list nonsecure.now.list) (give_answer result) (stand_of self.new) }
        ensures fails { FailsAsSet result self.old self.new }
    {
        self.count_call()?;
        let Some(number) = next_given(self.inbox.as_slice(), self.last_given) else {
            return Ok(Gave::Nothing);
        };
        let place = place_of_receipt(self.inbox.as_slice(), number);
        let folder = self.inbox[place].folder(inbound, nonsecure);
        let plan = plan_gift(alloc, &self.inbox[place], folder, self.outside.as_slice())?;
        let Some(plan) = plan else {
            self.last_given = number;
            return Ok(Gave::Held(number));
        };
        make_room(1, &mut self.outside)?;
        add(plan.gift, &mut self.gifts)?;
        put_file(plan.file, &mut self.outside);
        self.inbox[place].give();
        self.last_given = number;
        Ok(Gave::Given(number))
    }

    fn act_next(&mut self, alloc: Global, dest: &Addr) -> Result<Option<u32>, StoreFault>
        requires { (stand_of self.old).state.counts.broken ≡ None }
        ensures kept { StoreKept (stand_of self.old) (Act_next (address dest.now)) (act_answer result) (stand_of self.new) }
        ensures fails { FailsAsSet result self.old self.new }
    {
        self.count_call()?;
        let Some(number) = next_action(self.queue.as_slice(), dest) else {
            return Ok(None);
        };
        let held = self.log.len() as u64 + u64::from(self.reserved);
        if held + 1 > u64::from(MOST_RECORDS) {
            return Err(self.find_full());
        }
        let place = place_of_entry(self.queue.as_slice(), number);
        let empty = self.queue[place].empty_source(alloc)?;
        make_room(1, &mut self.outside)?;
        make_room(1 + self.reserved as usize, &mut self.log)?;
        self.queue[place].act_on_source(empty, &mut self.outside);
        self.queue[place].act();
        append(self.seat, LogRecord::Acted { number }, &mut self.log);
        Ok(Some(number))
    }

    fn reserve(&mut self, places: u32) -> Result<(), StoreFault>
        requires { (stand_of self.old).state.counts.broken ≡ None }
        ensures kept { StoreKept (stand_of self.old) (Reserve places) (well_answer result) (stand_of self.new) }
        ensures fails { FailsAsSet result self.old self.new }
    {
        self.count_call()?;
        let records = self.log.len() as u64;
        let wanted = records + u64::from(self.reserved) + u64::from(places);
        if wanted > u64::from(MOST_RECORDS) {
            return Err(self.find_full());
        }
        let all = self.reserved + places;
        make_places(self.alloc, all as usize, &mut self.places, &mut self.log)?;
        self.reserved = all;
        Ok(())
    }

    fn release(&mut self, places: u32) {
        self.reserved -= places;
    }

    ghost tied = { tied };
}
