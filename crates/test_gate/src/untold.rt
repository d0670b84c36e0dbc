ghost use Rattle.std.specs.Prelude.{◌≡◌, [], ℕ, IfSome};
ghost use Rattle.turn_gate.specs.Passes.{view, IsFree};
ghost use Rattle.turn_gate.specs.Turns.{IsTurn};

use std::alloc::Global;
use std::sync::Wait;
use turn_gate::{Gate, Grows, Pass};

// A value that doesn't tell its list, but how many entries that has.
#[derive(Drop)]
struct Tally {
    count: u64,
}

impl Grows for Tally {
    ghost use Rattle.std.proofs.Common.{inr, refl};

    type State = u64;

    type Entry = ();

    type Part = ();

    ghost state = { λ t. t.count };

    ghost blank = { 0 };

    ghost entries = { λ s. [] };

    ghost length_of = { λ s. s };

    ghost by = { λ e. 0 };

    ghost part = { λ k s. tt };

    ghost turn = { IsTurn {X = ℕ} {E = Unit {0}} {P = Unit {0}} (λ s. []) (λ e. 0) (λ k s. tt) };

    fn grown(&self) -> u64 {
        self.count
    }

    ghost told_whole_or_not = { λ x. inr refl };

    ghost turn_is_own = { λ seat a b turn. turn };
}

// A gate over a tally, with its one pass, where there is memory.
fn tally_gate(alloc: Global, count: u64) -> Option<(Gate<Tally>, Pass<Tally>)>
    ensures { IfSome result (λ r. IsFree r.0 r.1) }
{
    match Gate::new(alloc, Tally { count }, 1) {
        Ok((gate, mut passes)) => {
            let pass = passes.pop()?;
            Some((gate, pass))
        }
        Err(_) => None,
    }
}

// One entry more, in a turn.
fn tally_one<W: Wait>(rt: &W, gate: &Gate<Tally>, pass: &mut Pass<Tally>)
    requires { IsFree gate.now pass.old }
    ensures { IsFree gate.now pass.new }
{
    let mut held = gate.enter(rt, pass);
    held.value.count = held.value.count.saturating_add(1);
    held.leave(gate, pass);
}

#[test]
fn pass_has_seen_as_many_entries_as_are_counted(rt: HostRuntime) {
    let (gate, mut pass) = tally_gate(rt.alloc(), 3).expect(&rt, "memory");
    assert_eq!(rt; pass.seen(), 3);
    tally_one(&rt, &gate, &mut pass);
    assert_eq!(rt; pass.seen(), 4);
}
