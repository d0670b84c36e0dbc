//! What records fold to.
use crate::records::{count, file, mark_of, named, peer, read_back, record, written};
use crate::saying::{say, say_count, say_text};
use anyhow::Result;
use ftn_addr::{Addr, FileKey};
use ledger_rec::{
    Batch, FoldFault, Folded, InboxItem, MarkItem, NewFileRec, QueueItem, Record, Turn,
};
use std::alloc::Global;
use test_script::{number, word, words_from};

fn small(words: &[&str], place: usize) -> Result<u8> {
    Ok(u8::try_from(number(words, place)?)?)
}

// A file of the queue with the action (0 none, 1 delete, 2 cut) and the flavour (0 immediate, 3 normal) that stand behind its name.
fn flavoured(alloc: Global, words: &[&str]) -> Result<Record> {
    let number = count(words, 1)?;
    let (action, flavour) = (small(words, 3)?, small(words, 4)?);
    let mut file = file(alloc, number, word(words, 2))?;
    file.action = action;
    file.flavour = flavour;
    Ok(Record::Queue(file))
}

fn fold(alloc: Global, folded: &mut Folded, words: &[&str], out: &mut String) -> Result<()> {
    let rec = if words.len() < 5 {
        record(alloc, words)?
    } else {
        flavoured(alloc, words)?
    };
    say(out, folded.add_owned(rec))
}

// A file of the queue: its number, whether it waits to be sent, and whether its action is done.
fn say_queued(item: &QueueItem, out: &mut String) -> Result<()> {
    say_count(out, " ", u64::from(item.number), "")?;
    say_text(out, if item.live { "" } else { " done" })?;
    say_text(out, if item.acted { " acted," } else { "," })
}

fn say_queue(queue: &[QueueItem], out: &mut String) -> Result<()> {
    say_text(out, "queue")?;
    for item in queue {
        say_queued(item, out)?;
    }
    Ok(())
}

fn say_marks(marks: &[MarkItem], out: &mut String) -> Result<()> {
    for item in marks {
        say_count(out, " mark ", u64::from(item.part), " of ")?;
        say_count(out, "", item.len, ",")?;
    }
    Ok(())
}

fn say_inbox(inbox: &[InboxItem], out: &mut String) -> Result<()> {
    for item in inbox {
        let answered = if item.answered { " answered," } else { "," };
        say_count(out, " receipt ", u64::from(item.receipt), answered)?;
    }
    Ok(())
}

// All that is folded.
fn told(folded: &Folded, out: &mut String) -> Result<()> {
    say_queue(folded.queue(), out)?;
    say_marks(folded.marks(), out)?;
    say_inbox(folded.inbox(), out)?;
    say_count(out, " refused ", folded.refused().len() as u64, ", takes ")?;
    say(out, folded.takes())?;
    say_text(out, ", parts ")?;
    say(out, folded.parts())
}

fn longer(alloc: Global, folded: &mut Folded, words: &[&str], out: &mut String) -> Result<()> {
    let mark = mark_of(alloc, words)?;
    say(out, folded.lengthen(&mark))
}

// A point of the peer.
fn point(alloc: Global, words: &[&str]) -> Result<Addr> {
    peer(alloc, u16::try_from(number(words, 1)?)?)
}

// The turn that is named, if one is.
fn turn(words: &[&str]) -> Result<Option<Turn>> {
    if words.len() < 4 {
        return Ok(None);
    }
    let (rank, number) = (small(words, 2)?, count(words, 3)?);
    Ok(Some(Turn { rank, number }))
}

// The first file that waits for that point of the peer, behind that turn where one is named.
fn waits(alloc: Global, folded: &Folded, words: &[&str], out: &mut String) -> Result<()> {
    let after = turn(words)?;
    let to = point(alloc, words)?;
    say(out, folded.next_waiting(&to, after))
}

// The first file whose source waits for its action at that point.
fn acts(alloc: Global, folded: &Folded, words: &[&str], out: &mut String) -> Result<()> {
    let to = point(alloc, words)?;
    say(out, folded.next_acting(&to))
}

fn queued(alloc: Global, folded: &Folded, name: &str, out: &mut String) -> Result<()> {
    let (to, key) = named(alloc, name)?;
    say(out, folded.is_queued(&to, &key))
}

// A mark that was held is folded within the room that was reserved for it.
fn add_held(
    alloc: Global,
    folded: &mut Folded,
    from: &Addr,
    key: &FileKey,
    mark: &Record,
) -> Result<(), FoldFault> {
    folded.hold(alloc, from, key)?;
    folded.reserve(1)?;
    folded.add(alloc, mark)?;
    folded.unhold(from, key);
    Ok(())
}

fn hold_for(
    alloc: Global,
    folded: &mut Folded,
    name: &str,
    mark: &Record,
    out: &mut String,
) -> Result<()> {
    let (from, key) = named(alloc, name)?;
    say(out, add_held(alloc, folded, &from, &key, mark))
}

fn hold(alloc: Global, folded: &mut Folded, words: &[&str], out: &mut String) -> Result<()> {
    let mark = record(alloc, words)?;
    hold_for(alloc, folded, word(words, 2), &mark, out)
}

// A file, by its number and its name.
fn push_file(alloc: Global, files: &mut Vec<NewFileRec>, word: &str) -> Result<()> {
    let (number, name) = word.split_once(":").unwrap_or((word, ""));
    files.push(file(alloc, number.parse::<u32>()?, name)?)?;
    Ok(())
}

fn files_of(alloc: Global, words: &[&str]) -> Result<Vec<NewFileRec>> {
    let mut files = Vec::new(alloc);
    for word in words {
        push_file(alloc, &mut files, word)?;
    }
    Ok(files)
}

// Files that are queued together, with a take and an answer: `-` for none, and then each number and name.
fn batch_of(alloc: Global, words: &[&str]) -> Result<Batch> {
    let files = files_of(alloc, words_from(words, 3))?;
    Ok(Batch {
        files,
        take: count(words, 1).ok(),
        answered: count(words, 2).ok(),
    })
}

// How many files are in the queue once a batch is prepared, and once it is folded, or why it doesn't follow.
fn batch(alloc: Global, folded: &mut Folded, words: &[&str], out: &mut String) -> Result<()> {
    let batch = batch_of(alloc, words)?;
    if let Err(fault) = folded.prepare(alloc, &batch) {
        return say(out, fault);
    }
    let before = folded.queue().len() as u64;
    folded.add_batch(batch);
    say_count(out, "", before, " files, then ")?;
    say(out, folded.queue().len())
}

// The file `f1`, `f2` and so on.
fn numbered(alloc: Global, number: u32) -> Result<NewFileRec> {
    let name = format!(in alloc; "f{number}")?;
    file(alloc, number, name.as_str())
}

// How many files wait to be sent, of how many.
fn live_of(queue: &[QueueItem]) -> (usize, usize) {
    (queue.iter().filter(|item| item.live).count(), queue.len())
}

fn queue_all(alloc: Global, folded: &mut Folded, files: u32) -> Result<()> {
    for number in 1..=files {
        let file = numbered(alloc, number)?;
        folded.add_owned(Record::Queue(file))?;
    }
    Ok(())
}

fn settle_all(folded: &mut Folded, files: u32) -> Result<()> {
    for number in 1..=files {
        folded.add_owned(Record::Done(number, 1))?;
    }
    Ok(())
}

// So many files are queued, and then settled.
fn queue_and_settle(
    alloc: Global,
    folded: &mut Folded,
    files: u32,
    out: &mut String,
) -> Result<()> {
    queue_all(alloc, folded, files)?;
    say_text(out, "live of all ")?;
    say(out, live_of(folded.queue()))?;
    settle_all(folded, files)?;
    say_text(out, ", then ")?;
    say(out, live_of(folded.queue()))
}

fn many(alloc: Global, words: &[&str], out: &mut String) -> Result<()> {
    let files = count(words, 1)?;
    let mut folded = Folded::new(alloc);
    queue_and_settle(alloc, &mut folded, files, out)
}

/// A call on records, by its words.
pub fn record_call(
    alloc: Global,
    folded: &mut Folded,
    words: &[&str],
    out: &mut String,
) -> Result<()> {
    let more = words_from(words, 1);
    match word(words, 0) {
        "write" => written(alloc, more, out),
        "spell" => read_back(alloc, word(words, 1), out),
        "fold" => fold(alloc, folded, more, out),
        "folded" => told(folded, out),
        "longer" => longer(alloc, folded, words, out),
        "hold" => hold(alloc, folded, more, out),
        "waits" => waits(alloc, folded, words, out),
        "acts" => acts(alloc, folded, words, out),
        "queued" => queued(alloc, folded, word(words, 1), out),
        "batch" => batch(alloc, folded, words, out),
        _ => many(alloc, words, out),
    }
}
