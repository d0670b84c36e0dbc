//! What stands in the gate's table, and what each seat at it knows.
use std::collections::LinkedList;

/// The value, with the number of turns made so far beside it.
#[derive(Drop)]
pub struct Counted<T> {
    pub value: T,
    pub count: u64,
}

/// What a pass had left when the gate took it in. It is for the proofs alone.
pub struct Joined<X> {
    pub seat: u32,
    pub turns: u64,
    pub left: X,
}

/// What a seat at the table knows. It is for the proofs alone: no value of it is made.
pub struct View<X> {
    /// It is the one that gives seats out and takes passes in, and never asks for the turn.
    pub keeper: bool,
    /// It is a pass that wasn't taken in.
    pub live: bool,
    /// The seat's number, counted from 0.
    pub seat: u32,
    /// The state as this seat last left it.
    pub left: X,
    /// How many turns this seat made.
    pub turns: u64,
    /// How often it asked for the turn and found it taken.
    pub missed: u64,
    /// It has found that no more turns can be counted.
    pub spent: bool,
    /// It has the turn.
    pub holds: bool,
    /// While it has the turn, the state of the value handed out; else what it left.
    pub taken: X,
    /// While it has the turn, the number beside that value; else 0.
    pub number: u64,
    /// The keeper's: the number of the next seat that it gives out.
    pub next: u32,
    /// The keeper's: the passes that it took in.
    pub joined: LinkedList<Joined<X>>,
}
