ghost use Rattle.std.specs.Prelude.{◌≡◌, ◌++◌, ◌∷◌, ◌≤◌, [], MatchBool, IfOk, IfSome, All, length, slice_index_or, vec_len, ℕ, ◌<◌};
ghost use Rattle.turn_gate.specs.Passes.{view, IsFree, HasTurn, AreAll, AreInOrder};
ghost use Rattle.turn_gate.specs.Turns.{IsTurn};

use std::alloc::{AllocError, Global};
use std::collections::LinkedList;
use std::sync::Wait;
use std::thread;
use std::thread::Threads;
use turn_gate::{Gate, Grows, Held, NoTurn, Pass};

// A list of pairs of a seat and a number.
#[derive(Drop)]
struct Pairs {
    items: Vec<(u32, u64)>,
}

impl Grows for Pairs {
    ghost use Rattle.std.proofs.Common.{inl, refl};

    type State = LinkedList<(u32, u64)>;

    type Entry = (u32, u64);

    type Part = ();

    ghost state = { λ p. p.items.items };

    ghost blank = { [] };

    ghost entries = { λ s. s };

    ghost length_of = { λ s. length s };

    ghost by = { λ e. e.0 };

    ghost part = { λ k s. tt };

    ghost turn = { IsTurn (λ s. s) (λ e. e.0) (λ k s. tt {0}) };

    fn grown(&self) -> u64 {
        self.items.len() as u64
    }

    ghost told_whole_or_not = { λ x. inl refl };

    ghost turn_is_own = { λ seat a b turn. turn };
}

impl Pairs {
    fn new(alloc: Global) -> Pairs {
        Pairs {
            items: Vec::new(alloc),
        }
    }

    // Appends a pair, and says whether there was memory.
    fn append(&mut self, seat: u32, number: u64) -> bool
        ensures { MatchBool result (self.new.items.items ≡ self.old.items.items ++ (seat, number) ∷ []) (self.new.items.items ≡ self.old.items.items) }
    {
        self.items.push((seat, number)).is_ok()
    }

    fn has(&self, pairs: &[(u32, u64)]) -> bool {
        self.items.as_slice() == pairs
    }
}

// Ends the visit with a pair more.
fn leave_with(
    mut held: Held<Pairs>,
    gate: &Gate<Pairs>,
    pass: &mut Pass<Pairs>,
    number: u64,
) -> bool
    requires has_turn { HasTurn gate.now pass.old held.count }
    requires value { (view pass.old).taken ≡ held.value.items.items }
    ensures free { IsFree gate.now pass.new }
    ensures seat { (view pass.new).seat ≡ (view pass.old).seat }
{
    let appended = held.value.append(pass.seat(), number);
    held.leave(gate, pass);
    appended
}

// Appends the numbers below so many, each in a turn of its own.
fn append_all<W: Wait>(rt: &W, gate: &Gate<Pairs>, pass: &mut Pass<Pairs>, count: u64)
    requires { IsFree gate.now pass.old }
    ensures free { IsFree gate.now pass.new }
    ensures seat { (view pass.new).seat ≡ (view pass.old).seat }
{
    for number in 0..count {
        let held = gate.enter(rt, pass);
        leave_with(held, gate, pass, number);
    }
}

// The same with each pass, in a thread of its own.
fn append_by_all<R: Threads + Wait + Sync>(
    rt: &R,
    gate: &Gate<Pairs>,
    passes: &mut [Pass<Pairs>],
    threads: usize,
    count: u64,
)
    requires threads { 0 < threads }
    requires free { All (IsFree gate.now) passes.old }
    ensures each { (k : ℕ) (d : _) → k < length passes.old → IsFree gate.now (slice_index_or passes.new k d) × ((view (slice_index_or passes.new k d)).seat ≡ (view (slice_index_or passes.old k d)).seat) }
{
    thread::for_each_mut(
        rt,
        passes,
        threads,
        &|_, pass: &mut Pass<Pairs>|
            requires { IsFree gate.now pass.old }
            ensures { IsFree gate.entry.now pass.new × ((view pass.new).seat ≡ (view pass.old).seat) }
        { append_all(rt, gate, pass, count) },
    );
}

// A gate of so many seats over an empty list, where there is memory.
fn empty_gate(alloc: Global, seats: u32) -> Option<(Gate<Pairs>, Vec<Pass<Pairs>>)>
    requires { (0 < seats) × (seats ≤ 256) }
    ensures { IfSome result (λ r. AreInOrder r.0 r.1.items × (vec_len r.1 ≡ seats)) }
{
    match Gate::new(alloc, Pairs::new(alloc), seats) {
        Ok(made) => Some(made),
        Err((_, AllocError)) => None,
    }
}

// Closes a gate, whose passes stand in order.
fn closed(gate: Gate<Pairs>, passes: Vec<Pass<Pairs>>) -> Pairs
    requires { AreInOrder gate passes.items }
{
    gate.close(passes)
}

// What came of a visit that was tried.
#[derive(Debug, Clone, Copy, PartialEq, Eq)]
enum Visit {
    /// The list had this length and this last pair, and was left as it was found.
    Saw(usize, Option<(u32, u64)>),
    /// There was no turn.
    Refused(NoTurn),
}

// Tries to enter, looks at the list, and leaves it as it is. Tells what it had seen while it was inside, too.
fn try_look(gate: &Gate<Pairs>, pass: &mut Pass<Pairs>) -> (Visit, u64)
    requires { IsFree gate.now pass.old }
    ensures { IsFree gate.now pass.new × ((view pass.new).seat ≡ (view pass.old).seat) }
{
    match gate.try_enter(pass) {
        Ok(held) => {
            let seen = pass.seen();
            let items = &held.value.items;
            let visit = Visit::Saw(items.len(), items.last().copied());
            held.leave(gate, pass);
            (visit, seen)
        }
        Err(why) => (Visit::Refused(why), pass.seen()),
    }
}

// What the second of two passes met.
#[derive(Debug, Clone, Copy, PartialEq, Eq)]
struct Met {
    /// While the first was inside.
    inside: Visit,
    /// After it left, and what it had seen then.
    after: Visit,
    seen_inside: u64,
    /// What it has seen once it left.
    seen: u64,
}

// The first pass enters and appends a pair. The second tries while it is inside, and again once it left.
fn take_turns<W: Wait>(
    rt: &W,
    gate: &Gate<Pairs>,
    first: &mut Pass<Pairs>,
    second: &mut Pass<Pairs>,
) -> Met
    requires first { IsFree gate.now first.old }
    requires second { IsFree gate.now second.old }
    ensures first { IsFree gate.now first.new × ((view first.new).seat ≡ (view first.old).seat) }
    ensures second { IsFree gate.now second.new × ((view second.new).seat ≡ (view second.old).seat) }
{
    let held = gate.enter(rt, first);
    let (inside, _) = try_look(gate, second);
    leave_with(held, gate, first, 7);
    let (after, seen_inside) = try_look(gate, second);
    Met {
        inside,
        after,
        seen_inside,
        seen: second.seen(),
    }
}

#[test]
fn second_pass_is_busy_and_then_reads_what_the_first_appended(rt: HostRuntime) {
    let alloc = rt.alloc();
    let (gate, mut passes) = empty_gate(alloc, 2).expect(&rt, "memory");
    let mut second = passes.pop().expect(&rt, "two passes");
    let mut first = passes.pop().expect(&rt, "two passes");
    let wanted = Met {
        inside: Visit::Refused(NoTurn::Busy),
        after: Visit::Saw(1, Some((0, 7))),
        seen_inside: 0,
        seen: 1,
    };
    assert_eq!(rt; take_turns(&rt, &gate, &mut first, &mut second), wanted);
    assert_eq!(rt; first.seen(), 1);
}

#[test]
fn closing_gives_back_what_was_appended(rt: HostRuntime) {
    let alloc = rt.alloc();
    let (gate, mut passes) = empty_gate(alloc, 1).expect(&rt, "memory");
    append_by_all(&rt, &gate, passes.as_mut_slice(), 1, 2);
    let pairs = closed(gate, passes);
    assert!(rt; pairs.has(&[(0, 0), (0, 1)]));
}

#[test]
fn there_are_as_many_passes_as_seats(rt: HostRuntime) {
    for seats in [1, 2, 256] {
        let (gate, passes) = empty_gate(rt.alloc(), seats).expect(&rt, "memory");
        assert_eq!(rt; passes.len(), seats as usize);
        for (at, pass) in passes.iter().enumerate() {
            assert_eq!(rt; (pass.seat() as usize, pass.seen()), (at, 0));
        }
        let pairs = closed(gate, passes);
        assert!(rt; pairs.has(&[]));
    }
}

#[test]
fn four_threads_append_a_thousand_pairs_each(rt: HostRuntime) {
    let alloc = rt.alloc();
    let (gate, mut passes) = empty_gate(alloc, 4).expect(&rt, "memory");
    append_by_all(&rt, &gate, passes.as_mut_slice(), 4, 1000);
    let pairs = closed(gate, passes);
    assert_eq!(rt; pairs.items.len(), 4000);
    for seat in 0..4 {
        let mut wanted = 0..1000;
        for (by, number) in pairs.items.iter() {
            if *by == seat {
                assert_eq!(rt; Some(*number), wanted.next());
            }
        }
        assert_eq!(rt; wanted.next(), None);
    }
}
