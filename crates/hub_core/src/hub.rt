//! A hub: the seats of a node over its store.
ghost use Rattle.std.specs.Prelude.{◌≡◌, ◌<◌, ◌≤◌, length, map, Some, None, option_map, false, true};
ghost use Rattle.hub_core.specs.Hubs.{hub_state};
ghost use Rattle.hub_core.specs.Holders.{HoldsOf};
ghost use Rattle.hub_core.specs.Indices.{ClaimsOf};

mod opening;

use crate::claim_index::ClaimIndex;
use crate::files::offer_file;
use crate::hold_index::HoldIndex;
use crate::parts::{end_session, refusal, refuse_number, take_turn};
use crate::places::{Open, Seats};
use crate::taking::take_data;
use crate::{DataIn, Desk, DeskFault, FileIn, Knock, Offer};
use ftn_addr::{Addr, FileKey, MAX_NUMBER, NoMemory};
use node_model::{Role, Store};
use std::alloc::Global;

/// The seats of a node over its store.
///
/// Calls of the store that are no session's can be made on it between those of its desks. Whoever makes them answers for it that
/// the hub still fits its store.
#[derive(Drop)]
pub struct Hub<S: Store> {
    pub store: S,
    pub(crate) seats: Seats,
    /// The seat that has claimed an entry, by its number.
    pub(crate) claims: ClaimIndex,
    /// The seat whose session holds a file of a sender.
    pub(crate) holds: HoldIndex,
    ghost claimed: { ClaimsOf claims (hub_state seats).chairs },
    ghost held: { HoldsOf holds (hub_state seats).chairs },
}

/// The desk of one seat of a hub, which it has while that seat's session makes its calls.
///
/// Each call first tells the store whose records come next. The seat was given by this hub.
#[derive(Drop)]
pub struct HubDesk<S: Store> {
    pub hub: Hub<S>,
    pub seat: u32,
}

impl<S: Store> Hub<S> {
    ghost use Rattle.hub_core.specs.Hubs.{seat_part};
    ghost use Rattle.hub_core.specs.HubCalls.{HasTurn, Does};
    ghost use Rattle.node_model.specs.Desks.{DataExact, Fits, begin_answer, data_answer, file_answer, knock_answer, settled_answer};
    ghost use Rattle.node_model.specs.Calls.{Data_call, File_call, Knock_call, Open_call, Leave_call};
    ghost use Rattle.std.specs.List.{All};
    ghost use Rattle.ftn_addr.specs.Address.{address};
    ghost use Rattle.ftn_addr.specs.Key.{key_of};
    ghost use Rattle.ftn_addr.specs.Limits.{IsAddress, IsKey};

    fn knock_now(&mut self, seat: u32, role: Role) -> Knock
        requires { HasTurn (S.stand self.old.store) (hub_state self.old.seats) seat }
        ensures { Does (S.stand self.old.store) (hub_state self.old.seats) seat (Knock_call role) (knock_answer (Ok result)) (S.stand self.new.store) (hub_state self.new.seats) }
    {
        if self.seats.turns_away(role) {
            self.seats.count_busy(seat);
            Knock::Busy
        } else {
            Knock::Come
        }
    }

    fn begin_now(
        &mut self,
        seat: u32,
        alloc: Global,
        role: Role,
        peers: &[Addr],
        secure: bool,
        moment: u64,
    ) -> Result<u32, DeskFault>
        requires turn { HasTurn (S.stand self.old.store) (hub_state self.old.seats) seat }
        requires none_yet { (seat_part (hub_state self.old.seats) seat).open_now ≡ false }
        requires some { 0 < length peers.now }
        requires limits { All IsAddress (map address peers.now) }
        ensures { Does (S.stand self.old.store) (hub_state self.old.seats) seat (Open_call role (map address peers.now) secure moment) (begin_answer result) (S.stand self.new.store) (hub_state self.new.seats) }
    {
        if self.seats.begun == MAX_NUMBER {
            let fault = refuse_number(&mut self.store);
            return Err(refusal(&self.store, fault));
        }
        let number = self.seats.begun + 1;
        match Open::new(alloc, number, role, peers, secure, moment) {
            Ok(session) => {
                self.seats.begin_session(seat, session);
                Ok(number)
            }
            Err(NoMemory) => Err(DeskFault::NoMemory),
        }
    }

    fn file_now(
        &mut self,
        seat: u32,
        alloc: Global,
        key: &FileKey,
        offset: u64,
    ) -> Result<FileIn, DeskFault>
        requires turn { HasTurn (S.stand self.old.store) (hub_state self.old.seats) seat }
        requires in_session { (seat_part (hub_state self.old.seats) seat).open_now ≡ true }
        requires limits { IsKey (key_of key.now) }
        ensures { Does (S.stand self.old.store) (hub_state self.old.seats) seat (File_call (key_of key.now) offset) (file_answer result) (S.stand self.new.store) (hub_state self.new.seats) }
    {
        let Some(mut session) = self.seats.take_session(seat) else {
            unreachable!()
        };
        let result = offer_file(
            &mut self.store,
            &self.seats,
            &mut self.holds,
            seat,
            alloc,
            &mut session,
            key,
            offset,
        );
        self.seats.put_session(seat, Some(session));
        result
    }

    fn data_now(&mut self, seat: u32, bytes: &[u8]) -> Result<DataIn, DeskFault>
        requires turn { HasTurn (S.stand self.old.store) (hub_state self.old.seats) seat }
        requires fits { Fits (seat_part (hub_state self.old.seats) seat) (length bytes.now) }
        ensures does { Does (S.stand self.old.store) (hub_state self.old.seats) seat (Data_call bytes.now) (data_answer result) (S.stand self.new.store) (hub_state self.new.seats) }
        ensures exact { DataExact (seat_part (hub_state self.old.seats) seat).held (length bytes.now) (data_answer result) }
    {
        let Some(mut session) = self.seats.take_session(seat) else {
            unreachable!()
        };
        let result = take_data(
            &mut self.store,
            &self.seats,
            &mut self.holds,
            seat,
            &mut session,
            bytes,
        );
        self.seats.put_session(seat, Some(session));
        result
    }

    fn leave_now(&mut self, seat: u32) -> Result<(), DeskFault>
        requires { HasTurn (S.stand self.old.store) (hub_state self.old.seats) seat }
        ensures { Does (S.stand self.old.store) (hub_state self.old.seats) seat Leave_call (settled_answer result) (S.stand self.new.store) (hub_state self.new.seats) }
    {
        let Some(session) = self.seats.take_session(seat) else {
            return Ok(());
        };
        match end_session(&mut self.store, &session) {
            Ok(()) => {
                self.claims.remove(session.claimed());
                self.holds.release(&session);
                Ok(())
            }
            Err(fault) => {
                self.seats.put_session(seat, Some(session));
                Err(refusal(&self.store, fault))
            }
        }
    }
}

impl<S: Store> HubDesk<S> {
    ghost use Rattle.hub_core.specs.Hubs.{IsReady, seat_part};
    ghost use Rattle.hub_core.specs.HubCalls.{Does};
    ghost use Rattle.node_model.specs.Desks.{DataExact, Fits, data_answer, file_answer};
    ghost use Rattle.node_model.specs.Calls.{Data_call, File_call};
    ghost use Rattle.ftn_addr.specs.Key.{key_of};
    ghost use Rattle.ftn_addr.specs.Limits.{IsKey};

    /// [`Desk::file_in`], told as the one row that it is, for a desk that has more rows behind it.
    pub fn file_row(
        &mut self,
        alloc: Global,
        key: &FileKey,
        offset: u64,
    ) -> Result<FileIn, DeskFault>
        requires ready { IsReady (S.stand self.old.hub.store) (hub_state self.old.hub.seats) self.old.seat }
        requires in_session { (seat_part (hub_state self.old.hub.seats) self.old.seat).open_now ≡ true }
        requires limits { IsKey (key_of key.now) }
        ensures does { Does (S.stand self.old.hub.store) (hub_state self.old.hub.seats) self.old.seat (File_call (key_of key.now) offset) (file_answer result) (S.stand self.new.hub.store) (hub_state self.new.hub.seats) }
        ensures seat { self.new.seat ≡ self.old.seat }
    {
        take_turn(&mut self.hub.store, self.seat);
        if let Some(count) = self.hub.store.broken() {
            self.hub.seats.drop_hold(self.seat);
            return Err(DeskFault::Disk(count));
        }
        self.hub.file_now(self.seat, alloc, key, offset)
    }

    /// [`Desk::data_in`], told as the one row that it is, for a desk that has more rows behind it.
    pub fn data_row(&mut self, bytes: &[u8]) -> Result<DataIn, DeskFault>
        requires ready { IsReady (S.stand self.old.hub.store) (hub_state self.old.hub.seats) self.old.seat }
        requires fits { Fits (seat_part (hub_state self.old.hub.seats) self.old.seat) (length bytes.now) }
        ensures does { Does (S.stand self.old.hub.store) (hub_state self.old.hub.seats) self.old.seat (Data_call bytes.now) (data_answer result) (S.stand self.new.hub.store) (hub_state self.new.hub.seats) }
        ensures exact { DataExact (seat_part (hub_state self.old.hub.seats) self.old.seat).held (length bytes.now) (data_answer result) }
        ensures seat { self.new.seat ≡ self.old.seat }
    {
        take_turn(&mut self.hub.store, self.seat);
        if let Some(count) = self.hub.store.broken() {
            return Err(DeskFault::Disk(count));
        }
        self.hub.data_now(self.seat, bytes)
    }
}

impl<S: Store> Desk for HubDesk<S> {
    ghost use Rattle.hub_core.specs.Hubs.{IsReady, hub_stand, seat_part};
    ghost use Rattle.hub_core.specs.HubCalls.{OwnCall};
    ghost use Rattle.hub_core.specs.HubLaws.{seat_tied};

    ghost alone = { true };

    ghost stand = { λ d. hub_stand (S.stand d.hub.store) (hub_state d.hub.seats) d.seat };

    ghost part = { λ d. seat_part (hub_state d.hub.seats) d.seat };

    ghost ready = { λ d. IsReady (S.stand d.hub.store) (hub_state d.hub.seats) d.seat };

    ghost rule = { λ d e. (e.seat ≡ d.seat) × OwnCall d.seat (hub_state d.hub.seats) (S.stand e.hub.store) (hub_state e.hub.seats) };

    fn knock(&mut self, role: Role) -> Result<Knock, DeskFault> {
        take_turn(&mut self.hub.store, self.seat);
        if let Some(count) = self.hub.store.broken() {
            return Err(DeskFault::Disk(count));
        }
        Ok(self.hub.knock_now(self.seat, role))
    }

    fn begin(
        &mut self,
        alloc: Global,
        role: Role,
        peers: &[Addr],
        secure: bool,
        now: u64,
    ) -> Result<u32, DeskFault> {
        take_turn(&mut self.hub.store, self.seat);
        if let Some(count) = self.hub.store.broken() {
            return Err(DeskFault::Disk(count));
        }
        self.hub
            .begin_now(self.seat, alloc, role, peers, secure, now)
    }

    fn file_in(&mut self, alloc: Global, key: &FileKey, offset: u64) -> Result<FileIn, DeskFault> {
        self.file_row(alloc, key, offset)
    }

    fn data_in(&mut self, bytes: &[u8]) -> Result<DataIn, DeskFault> {
        self.data_row(bytes)
    }

    fn offer(&mut self, alloc: Global) -> Result<Offer, DeskFault> {
        take_turn(&mut self.hub.store, self.seat);
        if let Some(count) = self.hub.store.broken() {
            return Err(DeskFault::Disk(count));
        }
        self.hub.offer_now(self.seat, alloc)
    }

    fn read(&mut self, at: u64, out: &mut [u8]) -> Result<usize, DeskFault> {
        take_turn(&mut self.hub.store, self.seat);
        if let Some(count) = self.hub.store.broken() {
            return Err(DeskFault::Disk(count));
        }
        self.hub.read_now(self.seat, at, out)
    }

    fn got(&mut self) -> Result<(), DeskFault> {
        take_turn(&mut self.hub.store, self.seat);
        if let Some(count) = self.hub.store.broken() {
            return Err(DeskFault::Disk(count));
        }
        self.hub.got_now(self.seat)
    }

    fn skip(&mut self) {
        take_turn(&mut self.hub.store, self.seat);
        self.hub.skip_now(self.seat);
    }

    fn leave(&mut self) -> Result<(), DeskFault> {
        take_turn(&mut self.hub.store, self.seat);
        if let Some(count) = self.hub.store.broken() {
            return Err(DeskFault::Disk(count));
        }
        self.hub.leave_now(self.seat)
    }

    ghost tied = { λ d ready. seat_tied (S.stand d.hub.store) (hub_state d.hub.seats) d.seat ready };
}
