//! What two nodes do with one another.
use crate::shown::{counts_text, ended_text, records_text, report_text, told};
use crate::words::{file, files, halves, node_number, number};
use anyhow::{Result, bail};
use mem_talk::{Came, Cut, Pair, Plan};
use std::alloc::Global;
use test_script::{behind, word, words_of};

// What came of the last call, at the near node and at the far one.
fn reports(alloc: Global, pair: &Pair) -> Result<String> {
    let near = report_text(alloc, pair.called())?;
    beside(near, "; ", report_text(alloc, pair.answered())?)
}

// How the last call ended, at the near node and at the far one.
fn both_end(alloc: Global, pair: &Pair) -> Result<String> {
    let near = ended_text(alloc, pair.called())?;
    beside(near, "; ", ended_text(alloc, pair.answered())?)
}

// Two texts with another one between them.
fn beside(first: String, between: &str, second: String) -> Result<String> {
    let mut text = first;
    text.push_str(between)?;
    text.push_str(second.as_str())?;
    Ok(text)
}

// What came of one of two sessions that crossed.
fn came_text(alloc: Global, came: Option<Came>) -> Result<String> {
    let Some(came) = came else {
        return Ok(String::from_str(alloc, "goes on")?);
    };
    let end = if came.finished {
        "Finished"
    } else {
        "broken off"
    };
    let end = String::from_str(alloc, end)?;
    counts_text(alloc, end, came.sent, came.received, came.skipped)
}

fn both_text(alloc: Global, came: [Option<Came>; 2]) -> Result<String> {
    let [first, second] = came;
    let first = came_text(alloc, first)?;
    beside(first, "; ", came_text(alloc, second)?)
}

// The near node calls the far one, and that one calls it under another address. The first session is cut where `cut` is said.
fn cross(alloc: Global, pair: &mut Pair, words: &[&str]) -> Result<String> {
    let (home, far) = (node_number(words, 1)?, node_number(words, 2)?);
    let (other, cut) = (node_number(words, 3)?, word(words, 4) == "cut");
    let plan = |home, calls| Plan { home, calls };
    let near_plans = [plan(home, Some(far)), plan(home, None)];
    let far_plans = [plan(far, None), plan(other, Some(home))];
    let cut = if cut { Cut::First } else { Cut::Neither };
    let [at_near, at_far] = pair.cross(alloc, near_plans, far_plans, cut)?;
    let near_text = both_text(alloc, at_near)?;
    beside(near_text, " / ", both_text(alloc, at_far)?)
}

// Whether each node has received these files of the other, each once and whole, and no others.
fn both(alloc: Global, pair: &Pair, text: &str) -> Result<String> {
    let (near, far) = halves(text);
    let near = files(alloc, near)?;
    let far = files(alloc, far)?;
    let has = pair.has_each(alloc, near.as_slice(), far.as_slice())?;
    told(alloc, has)
}

// The same of the far node alone.
fn far_has(alloc: Global, pair: &Pair, text: &str) -> Result<String> {
    let files = files(alloc, text)?;
    let has = pair.far_has_each(alloc, files.as_slice())?;
    told(alloc, has)
}

fn stores(alloc: Global, pair: &Pair) -> Result<String> {
    let (live, received, refused) = (pair.live(), pair.received(), pair.refused());
    Ok(format!(in alloc; "{live:?} left, {received:?} received, {refused:?} refused")?)
}

// How many bytes of a file the far node keeps.
fn far_keeps(alloc: Global, pair: &Pair, words: &[&str]) -> Result<String> {
    let kept = pair.far_keeps(alloc, file(word(words, 1))?)?;
    told(alloc, kept)
}

fn ask(alloc: Global, pair: &Pair, line: &str, words: &[&str]) -> Result<String> {
    match word(words, 0) {
        "reports" => reports(alloc, pair),
        "both_end" => both_end(alloc, pair),
        "stores" => stores(alloc, pair),
        "both" => both(alloc, pair, behind(line)),
        "far_has" => far_has(alloc, pair, behind(line)),
        "far_keeps" => far_keeps(alloc, pair, words),
        "far_records" => records_text(alloc, pair.far_store()),
        "secure" => told(alloc, pair.is_secure()),
        _ => bail!("no such call"),
    }
}

// Queues files at one of the nodes, or gives the far one another address.
fn prepare(alloc: Global, pair: &mut Pair, line: &str, words: &[&str]) -> Result<String> {
    let node = node_number(words, 1)?;
    let files = files(alloc, behind(behind(line)))?;
    match word(words, 0) {
        "queue_near" => pair.queue_near(alloc, node, files.as_slice())?,
        "queue_far" => pair.queue_far(alloc, node, files.as_slice())?,
        _ => pair.rename_far(alloc, node)?,
    }
    Ok(String::new(alloc))
}

// A call whose line is cut behind so many bytes, or never. Whether both sessions ended.
fn call(alloc: Global, pair: &mut Pair, words: &[&str], n: u64) -> Result<String> {
    let most = if word(words, 1).is_empty() {
        u64::MAX
    } else {
        number(words, 1, n)?
    };
    let ended = if pair.call(alloc, most)? {
        "ended"
    } else {
        "goes on"
    };
    Ok(String::from_str(alloc, ended)?)
}

/// What the call of two nodes of this line comes to, empty where it tells nothing.
pub fn pair_call(alloc: Global, pair: &mut Pair, line: &str, n: u64) -> Result<String> {
    let words = words_of(alloc, line)?;
    let words = words.as_slice();
    match word(words, 0) {
        "call" => call(alloc, pair, words, n),
        "cross" => cross(alloc, pair, words),
        "queue_near" | "queue_far" | "rename_far" => prepare(alloc, pair, line, words),
        _ => ask(alloc, pair, line, words),
    }
}
