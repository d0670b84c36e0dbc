//! Whom a node that serves may call, and when it last did.
ghost use Rattle.std.specs.Prelude.{[], ◌++◌, ◌∷◌, ◌≡◌, ◌≤◌, ℕ, IfOk, OnErr, OnOk, length, map};
ghost use Rattle.ftn_addr.specs.Address.{address};
ghost use Rattle.ledger_rec.specs.Items.{entry};
ghost use Rattle.mail_conf.specs.ConfView.{conf_text};
ghost use Rattle.node_store.specs.Contents.{Contents, entry_by};
ghost use Rattle.node_store.specs.Logs.{flavour_of};
ghost use Rattle.node_store.specs.Stored.{stand_of};
ghost use Rattle.binkp_serve.specs.Calling.{IsTried, item_of, items_of, queue_of, waits};

use call_hosts::has_host;
use call_sched::{Try, Wanted};
use disk_model::Yard;
use ftn_addr::{Addr, NoMemory, is_same_address};
use ledger_rec::QueueItem;
use mail_conf::Conf;
use node_model::Flavour;
use node_store::NodeStore;
use nodelist_find::Index;
use std::alloc::Global;

// The flavour that has this number in a record.
fn flavour_of(number: u8) -> Flavour
    ensures { result ≡ flavour_of number }
{
    match number {
        0 => Flavour::Immediate,
        1 => Flavour::Crash,
        2 => Flavour::Direct,
        3 => Flavour::Normal,
        _ => Flavour::Hold,
    }
}

fn item_of(
    alloc: Global,
    conf: &Conf,
    index: &Option<Index>,
    item: &QueueItem,
) -> Result<Wanted, NoMemory>
    ensures { IfOk result (λ wanted. (c : Contents ℕ) → waits wanted ≡ item_of (conf_text conf.now) index.now (entry_by c (entry item.now))) }
{
    Ok(Wanted {
        addr: item.dest.copy(alloc)?,
        flavour: flavour_of(item.flavour),
        callable: has_host(conf, index, &item.dest),
    })
}

// Adds a file that is queued, where it waits.
fn push_waiting(
    alloc: Global,
    conf: &Conf,
    index: &Option<Index>,
    item: &QueueItem,
    items: &mut Vec<Wanted>,
) -> Result<(), NoMemory>
    ensures { OnOk result ((c : Contents ℕ) → map waits items.new.items ≡ map waits items.old.items ++ items_of (conf_text conf.now) index.now (entry_by c (entry item.now) ∷ [])) }
{
    if !item.live {
        return Ok(());
    }
    let wanted = item_of(alloc, conf, index, item)?;
    Ok(items.push(wanted)?)
}

// Those of a queue that wait.
fn items_in(
    alloc: Global,
    conf: &Conf,
    index: &Option<Index>,
    queue: &[QueueItem],
) -> Result<Vec<Wanted>, NoMemory>
    ensures { IfOk result (λ wanted. (c : Contents ℕ) → map waits wanted.items ≡ items_of (conf_text conf.now) index.now (map (entry_by c) (map entry queue.now))) }
{
    let mut items = Vec::new(alloc);
    for item in queue {
        push_waiting(alloc, conf, index, item, &mut items)?;
    }
    Ok(items)
}

/// The files of a store that wait to be sent, and whether there is a host for their addresses.
///
/// # Errors
/// Want of memory.
pub(crate) fn items_of<D: Yard>(
    alloc: Global,
    conf: &Conf,
    index: &Option<Index>,
    store: &NodeStore<D>,
) -> Result<Vec<Wanted>, NoMemory>
    ensures { IfOk result (λ wanted. map waits wanted.items ≡ items_of (conf_text conf.now) index.now (queue_of (stand_of D.tells D.content D.fault_count D.moment D.images store.now))) }
{
    items_in(alloc, conf, index, store.state().queue())
}

// Where an address stands among calls in order, or would stand, by halves.
fn place_of(tries: &[Try], addr: &Addr) -> usize
    ensures { result ≤ length tries.now }
{
    let mut low = 0;
    let mut high = tries.len();
    while low < high {
        let middle = low + (high - low) / 2;
        if tries[middle].addr.cmp(addr).is_lt() {
            low = middle + 1;
        } else {
            high = middle;
        }
    }
    low
}

/// Notes that an address is called at a moment, in place of its last call.
///
/// # Errors
/// Want of memory: nothing is noted.
pub(crate) fn note_try(
    alloc: Global,
    addr: &Addr,
    at: u64,
    tries: &mut Vec<Try>,
) -> Result<(), NoMemory>
    ensures ok { OnOk result (IsTried (address addr.now) at tries.old.items tries.new.items) }
    ensures err { OnErr result (tries.new.items ≡ tries.old.items) }
{
    let place = place_of(tries.as_slice(), addr);
    if place < tries.len() && is_same_address(&tries[place].addr, addr) {
        tries[place].at = tries[place].at.max(at);
        return Ok(());
    }
    let made = Try {
        addr: addr.copy(alloc)?,
        at,
    };
    Ok(tries.insert(place, made)?)
}
