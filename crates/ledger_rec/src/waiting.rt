//! The files that wait for each address, to be sent or for their action.
ghost use Rattle.std.specs.Prelude.{◌≡◌, ◌==◌, ◌||◌, Bool, true, false, map, position, Option};
ghost use Rattle.ftn_addr.specs.Address.{address};
ghost use Rattle.file_index.specs.Numbered.{Numbers};
ghost use Rattle.file_index.specs.Turns.{IsPast, NextTurn, Turns};
ghost use Rattle.file_index.specs.declared.turns.Turn.{Turn};
ghost use Rattle.ledger_rec.specs.Indexed.{Agrees};
ghost use Rattle.ledger_rec.specs.Items.{Entry, entry};
ghost use Rattle.ledger_rec.specs.Lists.{state_of};
ghost use Rattle.ledger_rec.specs.Record.{record_of};
ghost use Rattle.ledger_rec.specs.Waiting.{HasBegun, HasEnded, WasIndexed, has_need, is_needed, needs_at, turn_for, wait_of};

use crate::Record;
use crate::items::QueueItem;
use crate::lists::Lists;
use file_index::{NumberIndex, Turn, TurnIndex};
use ftn_addr::{Addr, is_same_address};

/// For what a queued file waits.
#[derive(Clone, Copy, Debug)]
pub(crate) enum Need {
    /// To be sent.
    Sending,
    /// That its source is acted on.
    Action,
}

/// What a record changes of the files that wait.
#[derive(Clone, Copy, Debug)]
pub(crate) enum Wait {
    /// The last file of the queue waits from now on, where it has the need.
    Begins,
    /// The file with that number waits no more.
    Ends(u32),
    Stays,
}

impl Need {
    // Whether the file waits for it.
    fn is_open(self, item: &QueueItem) -> bool
        ensures { result ≡ has_need self (entry item.now) }
    {
        match self {
            Need::Sending => item.live,
            Need::Action => item.action > 0 && !item.acted,
        }
    }

    // When the file comes: by its number, and before that by its flavour, where it is to be sent.
    fn turn(self, item: &QueueItem) -> Turn
        ensures { result ≡ turn_for self (entry item.now) }
    {
        let rank = match self {
            Need::Sending => item.flavour,
            Need::Action => 0,
        };
        Turn {
            rank,
            number: item.number,
        }
    }

    /// What a record changes of the files that wait for it.
    pub(crate) fn change(self, rec: &Record) -> Wait
        ensures { result ≡ wait_of (record_of rec.now) self }
    {
        match rec {
            Record::Queue(_) => Wait::Begins,
            Record::Done(number, _) => match self {
                Need::Sending => Wait::Ends(*number),
                Need::Action => Wait::Stays,
            },
            Record::Received(_) => Wait::Stays,
            Record::Refused(_) => Wait::Stays,
            Record::Mark(_) => Wait::Stays,
            Record::Taken(_) => Wait::Stays,
            Record::Acted(number) => match self {
                Need::Sending => Wait::Stays,
                Need::Action => Wait::Ends(*number),
            },
            Record::Answered(_) => Wait::Stays,
        }
    }

    /// Notes in the index what changed in the queue.
    pub(crate) fn note(self, wait: Wait, lists: &Lists, index: &mut TurnIndex)
        requires agrees { Agrees lists.now.index (state_of lists.now) }
        requires was { WasIndexed self wait index.old (map entry lists.now.queue.items) }
        ensures { Turns index.new (is_needed self (map entry lists.now.queue.items)) }
    {
        let queue = lists.queue.as_slice();
        match wait {
            Wait::Begins => begin(self, queue, index),
            Wait::Ends(number) => end(self, number, &lists.index.numbers, queue, index),
            Wait::Stays => {}
        }
    }

    /// The turn of the first file that waits for it and an address behind that turn: the index's, and
    /// where memory was wanting the queue's.
    pub(crate) fn next(
        self,
        index: &TurnIndex,
        queue: &[QueueItem],
        dest: &Addr,
        after: Option<Turn>,
    ) -> Option<Turn>
        requires { Turns index.now (is_needed self (map entry queue.now)) }
        ensures { NextTurn (is_needed self (map entry queue.now) (address dest.now)) after result }
    {
        match index.next(dest, after) {
            Some(next) => next,
            None => first_needed(self, queue, dest, after),
        }
    }
}

// The last file waits, where it has the need.
fn begin(need: Need, queue: &[QueueItem], index: &mut TurnIndex)
    requires { HasBegun need index.old (map entry queue.now) }
    ensures { Turns index.new (is_needed need (map entry queue.now)) }
{
    match queue.last() {
        Some(item) => {
            if need.is_open(item) {
                index.note(&item.dest, need.turn(item));
            }
        }
        None => unreachable!(),
    }
}

// Where the file with that number stands.
fn file_at(number: u32, numbers: &NumberIndex, queue: &[QueueItem]) -> Option<usize>
    requires { Numbers numbers.now (map (λ e. e.number) (map entry queue.now)) }
    ensures { result ≡ position (λ e. (entry e).number == number) queue.now }
{
    let start = numbers.start(number, queue.len());
    let behind = first_file(number, &queue[start..]);
    match behind {
        Some(i) => Some(start + i),
        None => None,
    }
}

fn first_file(number: u32, queue: &[QueueItem]) -> Option<usize>
    ensures { result ≡ position (λ e. (entry e).number == number) queue.now }
{
    queue.iter().position(|item| item.number == number)
}

// The file with that number waits no more.
fn end(need: Need, number: u32, numbers: &NumberIndex, queue: &[QueueItem], index: &mut TurnIndex)
    requires numbered { Numbers numbers.now (map (λ e. e.number) (map entry queue.now)) }
    requires was { HasEnded need number index.old (map entry queue.now) }
    ensures { Turns index.new (is_needed need (map entry queue.now)) }
{
    match file_at(number, numbers, queue) {
        Some(i) => {
            let item = &queue[i];
            index.remove(&item.dest, need.turn(item));
        }
        None => unreachable!(),
    }
}

// Whether a turn comes behind that one, where one is given.
fn is_past(after: Option<Turn>, turn: Turn) -> bool
    ensures past { result ≡ true → IsPast after turn }
    ensures not_past { result ≡ false → IsPast after turn → ⊥ }
{
    match after {
        Some(at) => at.rank < turn.rank || at.rank == turn.rank && at.number < turn.number,
        None => true,
    }
}

// The turn of a file, where it waits for that address behind that turn.
fn turn_past(need: Need, item: &QueueItem, dest: &Addr, after: Option<Turn>) -> Option<Turn>
    ensures { NextTurn (λ t. needs_at need (address dest.now) t (entry item.now)) after result }
{
    let turn = need.turn(item);
    if need.is_open(item) && is_same_address(dest, &item.dest) && is_past(after, turn) {
        Some(turn)
    } else {
        None
    }
}

fn earlier(a: Option<Turn>, b: Option<Turn>) -> Option<Turn>
    ensures { (p q : Turn → Bool) (after : Option Turn) → NextTurn p after a → NextTurn q after b → NextTurn (λ t. p t || q t) after result }
{
    match (a, b) {
        (None, b) => b,
        (Some(a), None) => Some(a),
        (Some(a), Some(b)) => {
            if is_past(Some(a), b) {
                Some(a)
            } else {
                Some(b)
            }
        }
    }
}

// The turn of the first file that waits for an address behind that turn, found by a walk.
fn first_needed(need: Need, queue: &[QueueItem], dest: &Addr, after: Option<Turn>) -> Option<Turn>
    ensures { NextTurn (is_needed need (map entry queue.now) (address dest.now)) after result }
{
    let mut first = None;
    for item in queue {
        first = earlier(first, turn_past(need, item, dest, after));
    }
    first
}
