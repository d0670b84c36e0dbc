//! What a ledger leaves, told line by line.
ghost use Rattle.std.specs.Prelude.{◌≡◌, ◌∷◌, ◌++◌, [], codes, count_by, IfOk, OnOk, map};
ghost use Rattle.std.specs.Fmt.{decimal};
ghost use Rattle.std.specs.List.{flat_map};
ghost use Rattle.binkp_args.specs.Escape.{escaped};
ghost use Rattle.ftn_addr.specs.Address.{address};
ghost use Rattle.ftn_addr.specs.Writing.{canonical};
ghost use Rattle.ledger_rec.specs.Items.{entry, part_mark};
ghost use Rattle.outbound_lines.specs.Listing.{counts_line, entry_line, flavour_word, list_text, live_line, part_line};

use crate::counts::push_count;
use binkp_args::escape;
use ftn_addr::{Addr, Bytes, NoMemory, write_addr};
use ledger_rec::{Folded, MarkItem, QueueItem};
use std::alloc::Global;

// The word of a flavour's rank.
fn flavour_word(rank: u8) -> &'static [u8]
    ensures { result.now ≡ flavour_word rank }
{
    match rank {
        0 => b"immediate",
        1 => b"crash",
        2 => b"direct",
        3 => b"normal",
        _ => b"hold",
    }
}

// Adds a number and a blank.
fn push_field(alloc: Global, number: u64, line: &mut Bytes) -> Result<(), NoMemory>
    ensures { OnOk result (line.new.list ≡ line.old.list ++ decimal number ++ codes " ") }
{
    line.push_number(alloc, number)?;
    line.push_slice(b" ")
}

// Adds a number and an address, with a blank behind each.
fn push_start(alloc: Global, number: u32, addr: &Addr, lines: &mut Bytes) -> Result<(), NoMemory>
    ensures { OnOk result (lines.new.list ≡ lines.old.list ++ decimal number ++ codes " " ++ canonical (address addr.now) ++ codes " ") }
{
    push_field(alloc, u64::from(number), lines)?;
    write_addr(alloc, addr, lines)?;
    lines.push_slice(b" ")
}

// Adds two numbers and a name, and ends the line.
fn push_end(
    alloc: Global,
    first: u64,
    second: u64,
    name: &Bytes,
    lines: &mut Bytes,
) -> Result<(), NoMemory>
    ensures { OnOk result (lines.new.list ≡ lines.old.list ++ decimal first ++ codes " " ++ decimal second ++ codes " " ++ escaped name.now.list ++ 10 ∷ []) }
{
    push_field(alloc, first, lines)?;
    push_field(alloc, second, lines)?;
    escape(alloc, name.as_slice(), lines)?;
    lines.push_slice(b"\n")
}

// `N ADDR FLAVOUR SIZE TIME NAME`
fn push_entry(alloc: Global, item: &QueueItem, lines: &mut Bytes) -> Result<(), NoMemory>
    ensures { OnOk result (lines.new.list ≡ lines.old.list ++ entry_line (entry item.now)) }
{
    push_start(alloc, item.number, &item.dest, lines)?;
    lines.push_slice(flavour_word(item.flavour))?;
    lines.push_slice(b" ")?;
    push_end(alloc, item.key.size, item.key.time, &item.key.name, lines)
}

// `part N ADDR LEN SIZE NAME`
fn push_part(alloc: Global, item: &MarkItem, lines: &mut Bytes) -> Result<(), NoMemory>
    ensures { OnOk result (lines.new.list ≡ lines.old.list ++ part_line (part_mark item.now)) }
{
    lines.push_slice(b"part ")?;
    push_start(alloc, item.part, &item.from, lines)?;
    push_end(alloc, item.len, item.key.size, &item.key.name, lines)
}

// The line of a file, where it waits.
fn push_live(alloc: Global, item: &QueueItem, lines: &mut Bytes) -> Result<(), NoMemory>
    ensures { OnOk result (lines.new.list ≡ lines.old.list ++ live_line (entry item.now)) }
{
    if item.live {
        push_entry(alloc, item, lines)?;
    }
    Ok(())
}

// The lines of the files that wait.
fn push_queue(alloc: Global, queue: &[QueueItem], lines: &mut Bytes) -> Result<(), NoMemory>
    ensures { OnOk result (lines.new.list ≡ lines.old.list ++ flat_map live_line (map entry queue.now)) }
{
    for item in queue {
        push_live(alloc, item, lines)?;
    }
    Ok(())
}

// The lines of the files that came in part.
fn push_parts(alloc: Global, marks: &[MarkItem], lines: &mut Bytes) -> Result<(), NoMemory>
    ensures { OnOk result (lines.new.list ≡ lines.old.list ++ flat_map part_line (map part_mark marks.now)) }
{
    for item in marks {
        push_part(alloc, item, lines)?;
    }
    Ok(())
}

// How many files wait.
fn live_count(queue: &[QueueItem]) -> usize
    ensures { result ≡ count_by (λ e. e.live) (map entry queue.now) }
{
    queue.iter().filter(|item| item.live).count()
}

// `live L parts P received R refused F`
fn push_counts(alloc: Global, folded: &Folded, lines: &mut Bytes) -> Result<(), NoMemory>
    ensures { OnOk result (lines.new.list ≡ lines.old.list ++ counts_line folded.now.state) }
{
    push_count(alloc, b"live ", live_count(folded.queue()) as u64, lines)?;
    push_count(alloc, b" parts ", folded.marks().len() as u64, lines)?;
    push_count(alloc, b" received ", folded.inbox().len() as u64, lines)?;
    push_count(alloc, b" refused ", folded.refused().len() as u64, lines)?;
    lines.push_slice(b"\n")
}

/// What a ledger leaves: one line for each file that waits to be sent, rising by number, `N ADDR FLAVOUR SIZE TIME NAME`; then one
/// for each that came in part, rising by part, `part N ADDR LEN SIZE NAME`; then `live L parts P received R refused F`. Each ends
/// by LF. Names are escaped as in commands of binkp (FTS-1026).
pub fn list_lines(alloc: Global, folded: &Folded) -> Result<Bytes, NoMemory>
    ensures { IfOk result (λ lines. lines.list ≡ list_text folded.now.state) }
{
    let mut lines = Bytes::new(alloc);
    push_queue(alloc, folded.queue(), &mut lines)?;
    push_parts(alloc, folded.marks(), &mut lines)?;
    push_counts(alloc, folded, &mut lines)?;
    Ok(lines)
}
