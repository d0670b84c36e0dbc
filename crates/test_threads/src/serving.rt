ghost use Rattle.std.specs.Prelude.{◌≡◌, ◌<◌, ℕ, Some, IfSome, slice_index_or, vec_len};
ghost use Rattle.hub_core.specs.Hubs.{hub_state};
ghost use Rattle.mail_conf.specs.ConfView.{conf_text};
ghost use Rattle.mail_conf.specs.Limits.{KeepsLimits};
ghost use Rattle.mem_shared.specs.Sights.{sight_by};
ghost use Rattle.mem_store.specs.ListStates.{stand_of};
ghost use Rattle.turn_gate.specs.Passes.{IsNew, opening};
ghost use Rattle.session_threads.specs.Held.{IsNamed};
ghost use Rattle.test_threads.specs.Serving.{AllBack, IfLine, IsBack, IsNewLine, NoneOut};

use crate::hubs::SEATS;
use binkp_link::MemLine;
use mem_shared::RoundDesk;
use session_core::Side;
use session_threads::{Begun, HandBack, Over, Shared, Slots, Stalls, rest};
use shared_desk::GateName;
use std::alloc::Global;
use std::sync::Wait;
use std::thread;
use std::thread::{Scope, Threads};

// One or two callers, and the slots of the seats at which they are answered.
#[derive(Drop)]
pub struct Callers<G: GateName> {
    pub slots: Slots<MemLine, RoundDesk, G>,
    pub first: MemLine,
    pub second: Option<MemLine>,
}

// What came of them, in the order of their seats, and these seats as they told that they ended.
#[derive(Drop)]
pub struct Served<G: GateName> {
    pub slots: Slots<MemLine, RoundDesk, G>,
    pub overs: Vec<Over<MemLine>>,
    pub order: Vec<u32>,
}

impl<G: GateName> HandBack for Callers<G> {
    type Value = Callers<G>;

    ghost value = { λ callers. callers };

    fn of(given: Callers<G>) -> Callers<G> {
        given
    }

    fn into_value(self) -> Callers<G> {
        self
    }
}

impl<G: GateName> HandBack for Served<G> {
    type Value = Served<G>;

    ghost value = { λ served. served };

    fn of(given: Served<G>) -> Served<G> {
        given
    }

    fn into_value(self) -> Served<G> {
        self
    }
}

// Begins a session at the seat behind the place of its line, where that may be, and says whether it did.
fn begin<'s, E, W: Wait + Sync + 's, T: Stalls + Sync + 's, G: GateName + Send + 's>(
    slots: &mut Slots<MemLine, RoundDesk, G>,
    shared: &'s Shared<W, RoundDesk, T>,
    scope: &Scope<'s, E>,
    place: u32,
    line: MemLine,
) -> bool
    requires place { place < 2 }
    requires named { IsNamed G.table shared.now.gate }
    requires keeps { KeepsLimits (conf_text shared.now.conf.value) }
    requires line { IsNewLine line }
    requires none_out { NoneOut slots.old }
    ensures { NoneOut slots.new }
{
    let Some(pass) = slots.lend(place + 1) else {
        return false;
    };
    match rest::<W, RoundDesk, G>(&shared.rt, &shared.gate, pass) {
        Ok(pass) => {
            let begun = Begun {
                place,
                side: Side::Answers,
                challenge: [0; 16],
                moment: 1_000_000_000,
                line,
                pass,
            };
            slots.begin(shared, scope, begun);
            true
        }
        Err((pass, _)) => {
            slots.put_back(pass);
            false
        }
    }
}

// Ends the session of a seat, where one runs there, and keeps what came of it where there is memory.
fn end_one<R: Threads, G: GateName>(
    rt: &R,
    slots: &mut Slots<MemLine, RoundDesk, G>,
    seat: u32,
    overs: &mut Vec<Over<MemLine>>,
)
    requires { NoneOut slots.old }
    ensures { IsBack seat slots.old slots.new }
{
    match slots.end(rt, seat) {
        Some(over) => {
            let _kept = overs.push(over);
        }
        None => {}
    }
}

// Ends all sessions.
fn end_all<R: Threads, G: GateName>(
    rt: &R,
    slots: &mut Slots<MemLine, RoundDesk, G>,
    overs: &mut Vec<Over<MemLine>>,
)
    requires { NoneOut slots.old }
    ensures { AllBack slots.new }
{
    for seat in 0..SEATS {
        end_one(rt, slots, seat, overs);
    }
}

// Answers the callers, each in a thread of its own, and waits for as many sessions to end as were begun.
fn answer<'s, E, W: Threads + Wait + Sync + 's, T: Stalls + Sync + 's, G: GateName + Send + 's>(
    shared: &'s Shared<W, RoundDesk, T>,
    scope: &Scope<'s, E>,
    callers: Callers<G>,
) -> Served<G>
    requires named { IsNamed G.table shared.now.gate }
    requires keeps { KeepsLimits (conf_text shared.now.conf.value) }
    requires first { IsNewLine callers.first }
    requires second { IfLine callers.second }
    requires none_out { NoneOut callers.slots }
    ensures { AllBack result.slots }
{
    let Callers {
        mut slots,
        first,
        second,
    } = callers;
    let mut order = Vec::new(shared.alloc);
    let mut overs = Vec::new(shared.alloc);
    let one = begin(&mut slots, shared, scope, 0, first);
    let other = match second {
        Some(second) => begin(&mut slots, shared, scope, 1, second),
        None => false,
    };
    wait_for(shared, u32::from(one) + u32::from(other), &mut order);
    end_all(&shared.rt, &mut slots, &mut overs);
    Served {
        slots,
        overs,
        order,
    }
}

// Waits for so many sessions to end, and keeps their seats where there is memory.
fn wait_for<W: Wait, T>(shared: &Shared<W, RoundDesk, T>, count: u32, order: &mut Vec<u32>) {
    for _ended in 0..count {
        let _kept = order.push(shared.ended.wait(&shared.rt));
    }
}

// The same for what stands for the callers and for what came of them.
fn answer_as<
    's,
    E,
    W: Threads + Wait + Sync + 's,
    T: Stalls + Sync + 's,
    G: GateName + Send + 's,
    I: HandBack<Value = Callers<G>>,
    D: HandBack<Value = Served<G>>,
>(shared: &'s Shared<W, RoundDesk, T>, scope: &Scope<'s, E>, callers: I) -> D
    requires named { IsNamed G.table shared.now.gate }
    requires keeps { KeepsLimits (conf_text shared.now.conf.value) }
    requires first { IsNewLine (I.value callers).first }
    requires second { IfLine (I.value callers).second }
    requires none_out { NoneOut (I.value callers).slots }
    ensures { AllBack (D.value result).slots }
{
    D::of(answer(shared, scope, callers.into_value()))
}

// Answers them in a scope of threads.
pub fn answer_all<
    W: Threads + Wait + Sync,
    T: Stalls + Sync,
    G: GateName + Send,
    I: HandBack<Value = Callers<G>> + Drop,
    D: HandBack<Value = Served<G>>,
>(shared: &Shared<W, RoundDesk, T>, callers: I) -> D
    requires named { IsNamed G.table shared.now.gate }
    requires keeps { KeepsLimits (conf_text shared.now.conf.value) }
    requires first { IsNewLine (I.value callers).first }
    requires second { IfLine (I.value callers).second }
    requires none_out { NoneOut (I.value callers).slots }
    ensures { AllBack (D.value result).slots }
{
    thread::scope(
        thread::scope_env(),
        &shared.rt,
        move |scope| -> D
            requires named { IsNamed G.table shared.now.gate }
            requires keeps { KeepsLimits (conf_text shared.now.conf.value) }
            requires first { IsNewLine (I.value callers).first }
            requires second { IfLine (I.value callers).second }
            requires none_out { NoneOut (I.value callers).slots }
            ensures { AllBack (D.value result).slots }
        { answer_as::<_, W, T, G, I, D>(shared, scope, callers) },
    )
}
