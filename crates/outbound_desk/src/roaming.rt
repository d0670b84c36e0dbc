//! The desk as one that many seats share behind a gate: it goes from seat to seat.
ghost use Rattle.outbound_desk.specs.Roaming.{line_sight, record_count, record_seats};
ghost use Rattle.shared_desk.specs.Seen.{SeatTurn};

use crate::{DeskOutbound, LineDesk};
use disk_model::Yard;
use hub_core::Hub;
use node_model::Store;
use outbound_store::TakingStore;
use shared_desk::{GateDesk, Roams};
use turn_gate::Grows;

/// The desk of one seat of a hub behind a gate, whose session begins with the take-in of its peer's outbound. Each of its calls is one
/// turn at the gate.
pub type OutboundDesk<'a, W, D, G> = GateDesk<'a, W, LineDesk<TakingStore<D>>, G>;

// Its list has the seat of each record that was made since the store was opened.
impl<D: Yard> Grows for LineDesk<TakingStore<D>> {
    ghost use Rattle.std.specs.Prelude.{None, Some};
    ghost use Rattle.node_store.specs.Tied.{tied};
    ghost use Rattle.outbound_desk.specs.Roaming.{home_behind, hub_behind, store_behind};
    ghost use Rattle.outbound_desk.specs.RoamingLaws.{told_by, turn_by};

    type State = Option<(Hub<TakingStore<D>>, DeskOutbound)>;

    type Entry = u32;

    type Part = ();

    ghost state = { λ d. Some (d.desk.hub, d.outbound) };

    ghost blank = { None };

    ghost entries = { record_seats D.tells D.content D.fault_count D.moment D.images };

    ghost length_of = { record_count D.tells D.content D.fault_count D.moment D.images };

    ghost by = { λ e. e };

    ghost part = { λ k x. tt };

    ghost turn = { SeatTurn (line_sight D.tells D.content D.fault_count D.moment D.images) };

    fn grown(&self) -> u64 {
        self.desk.hub.store.appended()
    }

    ghost told_whole_or_not = { told_by (store_behind D.tells D.content D.fault_count D.moment D.images) hub_behind home_behind (λ x. tied D.tells (D.content x.0.store.store.disk) (D.fault_count x.0.store.store.disk) x.0.store.store.memory) };

    ghost turn_is_own = { turn_by (store_behind D.tells D.content D.fault_count D.moment D.images) hub_behind home_behind };
}

impl<D: Yard> Roams for LineDesk<TakingStore<D>> {
    ghost use Rattle.std.proofs.Common.{refl};
    ghost use Rattle.outbound_desk.specs.Roaming.{home_behind, hub_behind, store_behind};
    ghost use Rattle.outbound_desk.specs.RoamingLaws.{one_hub_by, own_by, sits_by, tied_by};

    ghost sight = { line_sight D.tells D.content D.fault_count D.moment D.images };

    ghost at = { λ d. d.desk.seat };

    fn sit(&mut self, seat: u32) {
        self.desk.seat = seat;
    }

    fn read_counts(&self) {
        let _faults = self.desk.hub.store.faults();
        let _fulls = self.desk.hub.store.fulls();
    }

    ghost is_alone = { refl };

    ghost one_hub = { one_hub_by (store_behind D.tells D.content D.fault_count D.moment D.images) hub_behind home_behind };

    ghost sits = { λ d ready. sits_by (store_behind D.tells D.content D.fault_count D.moment D.images) hub_behind home_behind (d.desk.hub, d.outbound) d.desk.seat ready };

    ghost own = { λ d e was ready rule. own_by (store_behind D.tells D.content D.fault_count D.moment D.images) hub_behind home_behind (d.desk.hub, d.outbound) (e.desk.hub, e.outbound) d.desk.seat e.desk.seat ready rule.0 rule.2 };

    ghost tied_at = { tied_by (store_behind D.tells D.content D.fault_count D.moment D.images) hub_behind home_behind };

    ghost is_turn = { λ k a b turn. turn };

    ghost turn_is = { λ k a b turn. turn };
}
