//! Which queued file is offered next, by the fold's order of those that wait. It takes no memory.
ghost use Rattle.std.specs.Prelude.{◌≡◌, ℕ, List, Some, map, option_map};
ghost use Rattle.ftn_addr.specs.Address.{address};
ghost use Rattle.ledger_rec.specs.Payloads.{fold_of};
ghost use Rattle.node_model.specs.SendRows.{rank};
ghost use Rattle.node_model.specs.Stocks.{NextLive};
ghost use Rattle.node_store.specs.Contents.{Contents, entry_by};
ghost use Rattle.node_store.specs.Logs.{flavour_of};
ghost use Rattle.node_store.specs.Offers.{place_of, turn_of};

use ftn_addr::Addr;
use ledger_rec::{Folded, Turn};
use node_model::{Flavour, LivePlace};

// The flavour that has this number in a record.
fn flavour_of(number: u8) -> Flavour
    ensures { result ≡ flavour_of number }
{
    match number {
        0 => Flavour::Immediate,
        1 => Flavour::Crash,
        2 => Flavour::Direct,
        3 => Flavour::Normal,
        _ => Flavour::Hold,
    }
}

fn rank_of(flavour: Flavour) -> u8
    ensures { result ≡ rank flavour }
{
    match flavour {
        Flavour::Immediate => 0,
        Flavour::Crash => 1,
        Flavour::Direct => 2,
        Flavour::Normal => 3,
        Flavour::Hold => 4,
    }
}

// When the entry at a place comes.
fn turn_of(place: Option<LivePlace>) -> Option<Turn>
    ensures { result ≡ option_map turn_of place }
{
    match place {
        Some((flavour, number)) => Some(Turn {
            rank: rank_of(flavour),
            number,
        }),
        None => None,
    }
}

// Where the entry stands that comes then.
fn place_of(turn: Option<Turn>) -> Option<LivePlace>
    ensures { result ≡ option_map place_of turn }
{
    match turn {
        Some(turn) => Some((flavour_of(turn.rank), turn.number)),
        None => None,
    }
}

/// The first live entry for an address behind that place.
pub(crate) fn next_of(folded: &Folded, dest: &Addr, after: Option<LivePlace>) -> Option<LivePlace>
    ensures { (payloads : List (List ℕ)) (c : Contents ℕ) → fold_of payloads ≡ Some folded.now.state → NextLive (address dest.now) after (map (entry_by c) folded.now.state.queue) result }
{
    place_of(folded.next_waiting(dest, turn_of(after)))
}
