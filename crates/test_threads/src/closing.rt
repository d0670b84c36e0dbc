ghost use Rattle.std.specs.Prelude.{◌≡◌, ◌<◌, ℕ, Some, slice_index_or, vec_len};
ghost use Rattle.hub_core.specs.Hubs.{hub_state};
ghost use Rattle.mail_conf.specs.ConfView.{conf_text};
ghost use Rattle.mail_conf.specs.Limits.{KeepsLimits};
ghost use Rattle.mem_shared.specs.Sights.{sight_by};
ghost use Rattle.mem_store.specs.ListStates.{stand_of};
ghost use Rattle.turn_gate.specs.Passes.{IsNew, opening, seats_of};
ghost use Rattle.session_threads.specs.Held.{IsNamed};
ghost use Rattle.test_threads.specs.Serving.{IfLine, IsNewLine};

use crate::callers::settings;
use crate::hubs::{SEATS, new_gate};
use crate::serving::{Callers, Served, answer_all};
use binkp_link::MemLine;
use mail_conf::Conf;
use mem_shared::RoundDesk;
use session_threads::{Ended, Over, Shared, Slots, Stalls, close};
use shared_desk::GateName;
use std::alloc::Global;
use std::marker::Brand;
use std::sync::Wait;
use std::thread::Threads;
use turn_gate::{Gate, Pass};

// What came of callers at a gate that is closed: its hub, their sessions in the order of their seats, and these seats as they told that
// they ended.
#[derive(Drop)]
pub struct Closed {
    pub desk: RoundDesk,
    pub overs: Vec<Over<MemLine>>,
    pub order: Vec<u32>,
    // One that ended, and wasn't waited for.
    pub more: Option<u32>,
}

// Answers callers at the seats of a gate, and closes it.
fn serve<W: Threads + Wait + Sync + Drop, T: Stalls + Sync + Drop, G: GateName + Send>(
    rt: W,
    alloc: Global,
    conf: Box<Conf>,
    stalls: T,
    made: (Gate<RoundDesk>, Vec<Pass<RoundDesk>>),
    first: MemLine,
    second: Option<MemLine>,
) -> Option<Closed>
    requires named { IsNamed G.table made.0 }
    requires keeps { KeepsLimits (conf_text conf.value) }
    requires count { (vec_len made.1 ≡ SEATS) × (seats_of made.0 ≡ SEATS) }
    requires new { (k : ℕ) (d : _) → k < vec_len made.1 → IsNew made.0 k (slice_index_or made.1.items k d) }
    requires ready { (k : ℕ) → k < vec_len made.1 → (sight_by (λ h. stand_of h.store) (λ h. hub_state h.seats)).ready k (opening (λ d. Some d.desk.hub) made.0) }
    requires first { IsNewLine first }
    requires second { IfLine second }
{
    let (gate, passes) = made;
    let Ok(ended) = Ended::new(alloc, SEATS) else {
        return None;
    };
    let Ok(slots) = Slots::<MemLine, RoundDesk, G>::new(alloc, &gate, passes) else {
        return None;
    };
    let shared = Shared {
        rt,
        alloc,
        gate,
        conf,
        ended,
        stalls,
    };
    let callers = Callers {
        slots,
        first,
        second,
    };
    let Served {
        slots,
        overs,
        order,
    } = answer_all::<W, T, G, Callers<G>, Served<G>>(&shared, callers);
    let more = shared.ended.take(&shared.rt);
    let Shared { gate, .. } = shared;
    Some(Closed {
        desk: close(gate, slots),
        overs,
        order,
        more,
    })
}

// The same at a new gate, where there is memory.
pub fn serve_new<W: Threads + Wait + Sync + Drop, T: Stalls + Sync + Drop>(
    rt: W,
    alloc: Global,
    stalls: T,
    first: MemLine,
    second: Option<MemLine>,
) -> Option<Closed>
    requires first { IsNewLine first }
    requires second { IfLine second }
{
    let conf = settings(alloc)?;
    let made = new_gate(alloc)?;
    serve::<W, T, Brand>(rt, alloc, conf, stalls, made, first, second)
}
