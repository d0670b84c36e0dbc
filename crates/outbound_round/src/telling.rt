//! What is told of one address.
ghost use Rattle.std.specs.Prelude.{◌≡◌, ◌++◌, IfOk, OnErr, OnOk, option_map};
ghost use Rattle.std.specs.Option.{option_or};
ghost use Rattle.ftn_addr.specs.Address.{address};
ghost use Rattle.ftn_addr.specs.declared.byte_list.Bytes.{Bytes as Text};
ghost use Rattle.outbound_round.specs.Counts.{has_passed};
ghost use Rattle.outbound_round.specs.Round.{EndsSo, TellsMore, end_text, fault_at, fault_behind, is_told, line_of, mark_in, nothing_told, passes_over, told_of};

use crate::counting::counts_of;
use crate::words::{Round, RoundFault, Telling};
use ftn_addr::{Addr, Bytes, NoMemory};
use outbound_lines::{TookCounts, marked_line, took_line};
use outbound_take::{TakeFault, Taken};
use std::alloc::Global;

/// A round that tells nothing but what ended it.
pub(crate) fn nothing_told(alloc: Global, fault: Option<RoundFault>) -> Round
    ensures { told_of result ≡ nothing_told fault }
{
    Round {
        lines: Bytes::new(alloc),
        marked: None,
        fault,
    }
}

// The line of an address: none where its fault ends the round.
fn line_of(alloc: Global, dest: &Addr, end: &Result<Taken, TakeFault>) -> Result<Bytes, NoMemory>
    ensures { IfOk result (λ line. line.list ≡ line_of (address dest.now) end.now) }
{
    match end {
        Ok(taken) => took_line(alloc, dest, &counts_of(taken)),
        Err(TakeFault::Marked(_)) => marked_line(alloc, dest),
        Err(TakeFault::Disk) => Ok(Bytes::new(alloc)),
        Err(TakeFault::Full) => Ok(Bytes::new(alloc)),
        Err(TakeFault::NoMemory) => Ok(Bytes::new(alloc)),
    }
}

// A missing source, or a file that is too long.
fn has_passed(counts: &TookCounts) -> bool
    ensures { result ≡ has_passed counts.now }
{
    counts.missing > 0 || counts.over > 0
}

// Whether something was passed over at an address.
fn passes_over(end: &Result<Taken, TakeFault>) -> bool
    ensures { result ≡ passes_over end.now }
{
    match end {
        Ok(taken) => has_passed(&counts_of(taken)),
        Err(TakeFault::Marked(_)) => true,
        Err(TakeFault::Disk) => false,
        Err(TakeFault::Full) => false,
        Err(TakeFault::NoMemory) => false,
    }
}

fn is_told(telling: Telling, end: &Result<Taken, TakeFault>) -> bool
    ensures { result ≡ is_told telling end.now }
{
    match telling {
        Telling::All => true,
        Telling::PassedOver => passes_over(end),
    }
}

fn add_line(
    alloc: Global,
    dest: &Addr,
    telling: Telling,
    end: &Result<Taken, TakeFault>,
    lines: &mut Bytes,
) -> Result<(), NoMemory>
    ensures ok { OnOk result (lines.new.list ≡ lines.old.list ++ end_text telling (address dest.now, end.now)) }
    ensures err { OnErr result (lines.new.list ≡ lines.old.list) }
{
    if !is_told(telling, end) {
        return Ok(());
    }
    let line = line_of(alloc, dest, end)?;
    lines.push_slice(line.as_slice())
}

// An address that is marked is passed over.
fn fault_at(end: &Result<Taken, TakeFault>) -> Option<RoundFault>
    ensures { result ≡ fault_at end.now }
{
    match end {
        Ok(_) => None,
        Err(TakeFault::Disk) => Some(RoundFault::Disk),
        Err(TakeFault::Marked(_)) => None,
        Err(TakeFault::Full) => Some(RoundFault::Full),
        Err(TakeFault::NoMemory) => Some(RoundFault::NoMemory),
    }
}

// What ends the round behind an address, by whether its store is broken then.
fn fault_behind(broken: Option<u64>, end: &Result<Taken, TakeFault>) -> Option<RoundFault>
    ensures { result ≡ fault_behind broken end.now }
{
    match broken {
        Some(_) => Some(RoundFault::Disk),
        None => fault_at(end),
    }
}

// Tells of an address that is passed, and says what ends the round there.
fn tell(
    alloc: Global,
    dest: &Addr,
    telling: Telling,
    broken: Option<u64>,
    end: &Result<Taken, TakeFault>,
    lines: &mut Bytes,
) -> Option<RoundFault>
    ensures { EndsSo telling broken result (address dest.now, end.now) lines.old.list lines.new.list }
{
    match fault_behind(broken, end) {
        Some(fault) => Some(fault),
        None => match add_line(alloc, dest, telling, end, lines) {
            Ok(()) => None,
            Err(_) => Some(RoundFault::NoMemory),
        },
    }
}

// Keeps the name of the first mark.
fn note_mark(end: Result<Taken, TakeFault>, marked: &mut Option<Bytes>)
    ensures { option_map (λ (b : Text). b.list) marked.new ≡ option_or (option_map (λ (b : Text). b.list) marked.old) (mark_in end) }
{
    match end {
        Err(TakeFault::Marked(name)) => {
            if marked.is_none() {
                *marked = Some(name);
            }
        }
        Ok(_) => {}
        Err(TakeFault::Disk) => {}
        Err(TakeFault::Full) => {}
        Err(TakeFault::NoMemory) => {}
    }
}

/// Tells of one address more, by what its take-in answered and whether its store is broken then.
pub(crate) fn tell_more(
    alloc: Global,
    dest: &Addr,
    telling: Telling,
    broken: Option<u64>,
    end: Result<Taken, TakeFault>,
    round: &mut Round,
)
    ensures { TellsMore telling broken (address dest.now, end) (told_of round.old) (told_of round.new) }
{
    round.fault = tell(alloc, dest, telling, broken, &end, &mut round.lines);
    note_mark(end, &mut round.marked);
}
