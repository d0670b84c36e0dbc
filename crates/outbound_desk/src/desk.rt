//! The desk of a seat that takes the outbound of its peer in.
ghost use Rattle.std.specs.Prelude.{◌≡◌, true, map};
ghost use Rattle.std.specs.List.{All};
ghost use Rattle.ftn_addr.specs.Address.{address};
ghost use Rattle.ftn_addr.specs.Limits.{IsAddress};
ghost use Rattle.hub_core.specs.Anew.{LooksAnew};
ghost use Rattle.hub_core.specs.HubLaws.{seat_tied};
ghost use Rattle.hub_core.specs.Hubs.{hub_stand, hub_state, seat_part};
ghost use Rattle.node_store.specs.Stored.{stand_of};
ghost use Rattle.outbound_desk.specs.Lines.{AnswersBehind, IsDeskReady, OwnTurn, TakesPeers, fault_wanted};

use crate::peers::take_peers;
use crate::requests::{Asked, answer, answer_senders, newest_request};
use disk_model::Yard;
use ftn_addr::{Addr, Bytes, FileKey};
use hub_core::{DataIn, Desk, DeskFault, FileIn, HubDesk, Knock, Offer};
use node_model::{Role, Store};
use outbound_intake::OutboundAt;
use outbound_store::TakingStore;
use std::alloc::Global;
use take_steps::Wanting;

/// Where the outbound of a desk is: the node's first address, the base, and the zone of the base's own folder; and the folders of
/// files that may be requested, in their order.
#[derive(Debug, Drop)]
pub struct DeskOutbound {
    pub home: Addr,
    pub base: Bytes,
    pub zone: u16,
    pub folders: Vec<Bytes>,
}

/// The desk of a seat of a hub. As a session begins at it, it first takes in the outbound of each peer address and answers the requests
/// of these that wait, and has the hub's sessions look anew for what they offer, since files are queued so. It answers a request as
/// soon as it was received; where no place or no memory is left for that, the request waits.
#[derive(Drop)]
pub struct LineDesk<S: Store> {
    pub desk: HubDesk<S>,
    pub outbound: DeskOutbound,
    /// What answers are made with, behind calls that are given no allocator.
    pub alloc: Global,
}

// Why a session isn't opened, where that was wanted before it.
fn fault_of(wanting: Wanting) -> DeskFault
    ensures { result ≡ fault_wanted wanting }
{
    match wanting {
        Wanting::Places => DeskFault::Full,
        Wanting::Memory => DeskFault::NoMemory,
    }
}

impl<D: Yard> LineDesk<TakingStore<D>> {
    /// Takes in the outbound of each peer address for which something is to be taken in, but of the home. One that another program has
    /// marked is passed over.
    fn take_in_first(&mut self, alloc: Global, peers: &[Addr], now: u64) -> Result<(), DeskFault>
        requires ready { IsDeskReady (stand_of D.tells D.content D.fault_count D.moment D.images self.old.desk.hub.store.store) (hub_state self.old.desk.hub.seats) self.old.desk.seat (address self.old.outbound.home) }
        requires anew { LooksAnew (hub_state self.old.desk.hub.seats) }
        requires whole { self.old.desk.hub.store.store.memory.broken ≡ None }
        requires limits { All IsAddress (map address peers.now) }
        ensures takes { TakesPeers (hub_state self.old.desk.hub.seats) self.old.desk.seat (stand_of D.tells D.content D.fault_count D.moment D.images self.old.desk.hub.store.store) result (stand_of D.tells D.content D.fault_count D.moment D.images self.new.desk.hub.store.store) }
        ensures seats { hub_state self.new.desk.hub.seats ≡ hub_state self.old.desk.hub.seats }
        ensures seat { self.new.desk.seat ≡ self.old.desk.seat }
        ensures outbound { self.new.outbound ≡ self.old.outbound }
    {
        let outbound = OutboundAt {
            home: &self.outbound.home,
            base: &self.outbound.base,
            zone: self.outbound.zone,
        };
        self.desk.hub.store.store.numbers_are_drawn();
        self.desk.hub.store.store.by(self.desk.seat);
        self.desk.hub.store.begin_anew();
        let wanting = take_peers(alloc, &mut self.desk.hub.store, &outbound, peers, now);
        match self.desk.hub.store.broken() {
            Some(count) => Err(DeskFault::Disk(count)),
            None => match wanting {
                Some(wanting) => Err(fault_of(wanting)),
                None => Ok(()),
            },
        }
    }
}

impl<D: Yard> LineDesk<TakingStore<D>> {
    /// Answers each request of the peer addresses that waits.
    fn answer_first(&mut self, alloc: Global, peers: &[Addr], now: u64) -> Result<(), DeskFault>
        requires ready { IsDeskReady (stand_of D.tells D.content D.fault_count D.moment D.images self.old.desk.hub.store.store) (hub_state self.old.desk.hub.seats) self.old.desk.seat (address self.old.outbound.home) }
        requires anew { LooksAnew (hub_state self.old.desk.hub.seats) }
        requires whole { self.old.desk.hub.store.store.memory.broken ≡ None }
        requires turn { self.old.desk.hub.store.store.memory.seat ≡ self.old.desk.seat }
        requires limits { All IsAddress (map address peers.now) }
        ensures takes { TakesPeers (hub_state self.old.desk.hub.seats) self.old.desk.seat (stand_of D.tells D.content D.fault_count D.moment D.images self.old.desk.hub.store.store) result (stand_of D.tells D.content D.fault_count D.moment D.images self.new.desk.hub.store.store) }
        ensures seats { hub_state self.new.desk.hub.seats ≡ hub_state self.old.desk.hub.seats }
        ensures seat { self.new.desk.seat ≡ self.old.desk.seat }
        ensures outbound { self.new.outbound ≡ self.old.outbound }
    {
        let folders = self.outbound.folders.as_slice();
        self.desk.hub.store.store.numbers_are_drawn();
        let wanting = answer_senders(&mut self.desk.hub.store.store, alloc, peers, now, folders);
        if let Some(faults) = self.desk.hub.store.broken() {
            return Err(DeskFault::Disk(faults));
        }
        match wanting {
            Some(want) => Err(fault_of(want)),
            None => Ok(()),
        }
    }

    /// Takes in the outbound of each peer address, and then answers each request of these addresses that waits.
    fn prepare(&mut self, alloc: Global, peers: &[Addr], now: u64) -> Result<(), DeskFault>
        requires ready { IsDeskReady (stand_of D.tells D.content D.fault_count D.moment D.images self.old.desk.hub.store.store) (hub_state self.old.desk.hub.seats) self.old.desk.seat (address self.old.outbound.home) }
        requires anew { LooksAnew (hub_state self.old.desk.hub.seats) }
        requires whole { self.old.desk.hub.store.store.memory.broken ≡ None }
        requires limits { All IsAddress (map address peers.now) }
        ensures takes { TakesPeers (hub_state self.old.desk.hub.seats) self.old.desk.seat (stand_of D.tells D.content D.fault_count D.moment D.images self.old.desk.hub.store.store) result (stand_of D.tells D.content D.fault_count D.moment D.images self.new.desk.hub.store.store) }
        ensures seats { hub_state self.new.desk.hub.seats ≡ hub_state self.old.desk.hub.seats }
        ensures seat { self.new.desk.seat ≡ self.old.desk.seat }
        ensures outbound { self.new.outbound ≡ self.old.outbound }
    {
        self.take_in_first(alloc, peers, now)?;
        self.answer_first(alloc, peers, now)
    }

    /// Answers the request that was just received, where it is one. Where no place or no memory is left it waits.
    fn answer_newest(&mut self)
        requires ready { IsDeskReady (stand_of D.tells D.content D.fault_count D.moment D.images self.old.desk.hub.store.store) (hub_state self.old.desk.hub.seats) self.old.desk.seat (address self.old.outbound.home) }
        requires turn { self.old.desk.hub.store.store.memory.seat ≡ self.old.desk.seat }
        ensures behind { AnswersBehind (stand_of D.tells D.content D.fault_count D.moment D.images) (hub_state self.old.desk.hub.seats) self.old.desk.seat self.old.desk.hub.store.store self.new.desk.hub.store.store (hub_state self.new.desk.hub.seats) }
        ensures seat { self.new.desk.seat ≡ self.old.desk.seat }
        ensures outbound { self.new.outbound ≡ self.old.outbound }
    {
        let None = self.desk.hub.store.broken() else {
            return;
        };
        let Some((first, moment)) = self.desk.hub.session(self.desk.seat) else {
            return;
        };
        let Ok(dest) = first.copy(self.alloc) else {
            return;
        };
        let Some(receipt) = newest_request(&self.desk.hub.store.store, &dest) else {
            return;
        };
        let asked = Asked {
            receipt,
            dest: &dest,
            moment,
        };
        let hub = &mut self.desk.hub;
        hub.look_anew();
        hub.store.store.numbers_are_drawn();
        let folders = self.outbound.folders.as_slice();
        let _answered = answer(&mut hub.store.store, self.alloc, &asked, folders);
    }
}

impl<D: Yard> Desk for LineDesk<TakingStore<D>> {
    ghost alone = { true };

    ghost stand = { λ d. hub_stand (stand_of D.tells D.content D.fault_count D.moment D.images d.desk.hub.store.store) (hub_state d.desk.hub.seats) d.desk.seat };

    ghost part = { λ d. seat_part (hub_state d.desk.hub.seats) d.desk.seat };

    ghost ready = { λ d. IsDeskReady (stand_of D.tells D.content D.fault_count D.moment D.images d.desk.hub.store.store) (hub_state d.desk.hub.seats) d.desk.seat (address d.outbound.home) };

    ghost rule = { λ d e. (e.desk.seat ≡ d.desk.seat) × (e.outbound ≡ d.outbound) × OwnTurn d.desk.seat (hub_state d.desk.hub.seats) (stand_of D.tells D.content D.fault_count D.moment D.images e.desk.hub.store.store) (hub_state e.desk.hub.seats) };

    #[tactic(auto, using(crate::proofs::Own::own_turn))]
    fn knock(&mut self, role: Role) -> Result<Knock, DeskFault> {
        self.desk.knock(role)
    }

    fn begin(
        &mut self,
        alloc: Global,
        role: Role,
        peers: &[Addr],
        secure: bool,
        now: u64,
    ) -> Result<u32, DeskFault> {
        if self.desk.hub.store.broken().is_some() {
            return self.desk.begin(alloc, role, peers, secure, now);
        }
        self.desk.hub.look_anew();
        match self.prepare(alloc, peers, now) {
            Ok(()) => self.desk.begin(alloc, role, peers, secure, now),
            Err(wanted) => Err(wanted),
        }
    }

    #[tactic(auto, using(crate::proofs::Own::own_turn))]
    fn offer(&mut self, alloc: Global) -> Result<Offer, DeskFault> {
        self.desk.offer(alloc)
    }

    #[tactic(auto, using(crate::proofs::Own::own_turn))]
    fn read(&mut self, at: u64, out: &mut [u8]) -> Result<usize, DeskFault> {
        self.desk.read(at, out)
    }

    #[tactic(auto, using(crate::proofs::Own::own_turn))]
    fn got(&mut self) -> Result<(), DeskFault> {
        self.desk.got()
    }

    #[tactic(auto, using(crate::proofs::Own::own_turn))]
    fn skip(&mut self) {
        self.desk.skip();
    }

    fn file_in(&mut self, alloc: Global, key: &FileKey, offset: u64) -> Result<FileIn, DeskFault> {
        match self.desk.file_row(alloc, key, offset) {
            Ok(FileIn::Whole) => {
                self.answer_newest();
                Ok(FileIn::Whole)
            }
            Ok(filed) => Ok(filed),
            Err(fault) => Err(fault),
        }
    }

    fn data_in(&mut self, bytes: &[u8]) -> Result<DataIn, DeskFault> {
        match self.desk.data_row(bytes) {
            Ok(DataIn::Whole) => {
                self.answer_newest();
                Ok(DataIn::Whole)
            }
            Ok(taken) => Ok(taken),
            Err(fault) => Err(fault),
        }
    }

    #[tactic(auto, using(crate::proofs::Own::own_turn))]
    fn leave(&mut self) -> Result<(), DeskFault> {
        self.desk.leave()
    }

    ghost tied = { λ d ready. seat_tied (stand_of D.tells D.content D.fault_count D.moment D.images d.desk.hub.store.store) (hub_state d.desk.hub.seats) d.desk.seat ready.ready };
}
