//! The answer to a file request (own).
ghost use Rattle.std.specs.List.{All};
ghost use Rattle.std.specs.Prelude.{◌≡◌, ◌<◌, ◌≤◌, ◌++◌, ℕ, Err, IfOk, IfSome, IsTrue, None, OnOk, Option, Some, length, map, option_map};
ghost use Rattle.ftn_addr.specs.Address.{address};
ghost use Rattle.ftn_addr.specs.Limits.{IsAddress};
ghost use Rattle.ftn_addr.specs.declared.limits.TheConstants.{MAX_NAME as MOST_NAME};
ghost use Rattle.node_model.specs.Stores.{IsKept};
ghost use Rattle.node_model.specs.StoreWords.{IsOpenRequest, entry_of};
ghost use Rattle.node_store.specs.Seeking.{FirstWaiting};
ghost use Rattle.node_store.specs.Stored.{stand_of};
ghost use Rattle.outbound_desk.specs.Answering.{Answers, AnswersRequest, IsBatch, StagesOne, StagesSo, listed, names_answer};
ghost use Rattle.outbound_desk.specs.Lines.{TakesIn};
ghost use Rattle.outbound_store.specs.Calls.{want_in};

use bso_outbound::last_part;
use disk_model::{Disk, Yard};
use file_request::{Share, answer_request};
use ftn_addr::{Action, Addr, Bytes, FileKey, MAX_NAME, NoMemory};
use ledger_rec::{Folded, is_request};
use node_model::{Flavour, NewFile, OutStat, Staged, StoreFault};
use node_store::NodeStore;
use std::alloc::Global;
use take_steps::Wanting;

/// A received request that is to be answered.
#[derive(Clone, Copy)]
pub(crate) struct Asked<'a> {
    pub(crate) receipt: u32,
    /// For whom its files are: the first address of the session's peer.
    pub(crate) dest: &'a Addr,
    /// The moment of the session, in seconds. A file whose key is queued for that address already has it as its time.
    pub(crate) moment: u64,
}

/// How many bytes of a request are read at once.
const PIECE: usize = 4_096;

/// A request of more bytes asks for nothing.
const MAX_REQUEST: usize = 65_536;

// The bytes of a request; not all of one that has too many.
fn read_request<D: Yard>(
    store: &mut NodeStore<D>,
    alloc: Global,
    receipt: u32,
) -> Result<Bytes, StoreFault>
    requires whole { store.old.memory.broken ≡ None }
    requires kept { IsKept receipt (stand_of D.tells D.content D.fault_count D.moment D.images store.old).state }
    ensures so { StagesSo result (stand_of D.tells D.content D.fault_count D.moment D.images store.old) (stand_of D.tells D.content D.fault_count D.moment D.images store.new) }
    ensures same { OnOk result ((stand_of D.tells D.content D.fault_count D.moment D.images store.new).state ≡ (stand_of D.tells D.content D.fault_count D.moment D.images store.old).state) }
{
    let mut bytes = Bytes::new(alloc);
    let mut piece = [0; PIECE];
    'pieces: loop {
        let count = match store.part_read(receipt, bytes.len() as u64, &mut piece) {
            Ok(count) => count,
            Err(fault) => return Err(fault),
        };
        if let Err(_) = bytes.push_slice(&piece[..count]) {
            return Err(StoreFault::NoMemory);
        }
        if count < PIECE || bytes.len() > MAX_REQUEST {
            return Ok(bytes);
        }
    }
}

// One share more.
fn add_share(
    alloc: Global,
    shares: &mut Vec<Share>,
    folder: &Bytes,
    names: Vec<Bytes>,
) -> Result<(), NoMemory> {
    let folder = folder.copy(alloc)?;
    shares.push(Share { folder, names })?;
    Ok(())
}

// The names in each of these folders. One that isn't there has none.
fn shares_of<D: Yard>(
    store: &mut NodeStore<D>,
    alloc: Global,
    folders: &[Bytes],
) -> Result<Vec<Share>, StoreFault>
    requires whole { store.old.memory.broken ≡ None }
    ensures so { StagesSo result (stand_of D.tells D.content D.fault_count D.moment D.images store.old) (stand_of D.tells D.content D.fault_count D.moment D.images store.new) }
    ensures same { OnOk result ((stand_of D.tells D.content D.fault_count D.moment D.images store.new).state ≡ (stand_of D.tells D.content D.fault_count D.moment D.images store.old).state) }
{
    let mut shares = Vec::new(alloc);
    for folder in folders {
        let names = match store.names(folder) {
            Ok(names) => names,
            Err(fault) => return Err(fault),
        };
        if let Err(_) = add_share(alloc, &mut shares, folder, names) {
            return Err(StoreFault::NoMemory);
        }
    }
    Ok(shares)
}

// Whether a file of that name can be sent.
fn can_send(name: &[u8]) -> bool
    ensures some { IsTrue result → 0 < length name.now }
    ensures short { IsTrue result → length name.now ≤ MOST_NAME }
{
    if name.is_empty() || name.len() > MAX_NAME {
        return false;
    }
    str::from_utf8(name).is_ok()
}

// The file that is to be queued for a staged copy: it waits for that address to call, and its source stays.
fn file_for(
    alloc: Global,
    dest: &Addr,
    name: &[u8],
    number: u32,
    stat: OutStat,
) -> Result<NewFile, NoMemory>
    ensures { IfOk result (λ file. entry_of file ≡ names_answer (address dest.now) name.now number stat) }
{
    let key = FileKey {
        name: Bytes::from_slice(alloc, name)?,
        size: stat.size,
        time: stat.time,
    };
    Ok(NewFile {
        number,
        dest: dest.copy(alloc)?,
        key,
        source: Bytes::new(alloc),
        action: Action::Leave,
        flavour: Flavour::Hold,
    })
}

// The time of a file's key: its own, or that of the session where that key is queued for that address already.
fn time_for(folded: &Folded, asked: &Asked<'_>, key: &FileKey) -> u64 {
    if folded.is_queued(asked.dest, key) {
        asked.moment
    } else {
        key.time
    }
}

// Stages the file of that path, where there is one that can be sent.
fn stage_file<D: Yard>(
    store: &mut NodeStore<D>,
    alloc: Global,
    asked: &Asked<'_>,
    path: &Bytes,
) -> Result<Option<NewFile>, StoreFault>
    requires whole { store.old.memory.broken ≡ None }
    ensures so { StagesSo result (stand_of D.tells D.content D.fault_count D.moment D.images store.old) (stand_of D.tells D.content D.fault_count D.moment D.images store.new) }
    ensures staged { IfOk result (λ file. StagesOne (address asked.now.dest.now) (option_map entry_of file) (stand_of D.tells D.content D.fault_count D.moment D.images store.old).state (stand_of D.tells D.content D.fault_count D.moment D.images store.new).state) }
{
    let name = last_part(path.as_slice());
    if !can_send(name) {
        return Ok(None);
    }
    let (number, stat) = match store.stage_copy(path) {
        Ok(Staged::Copied(number, stat)) => (number, stat),
        Ok(Staged::Absent) => return Ok(None),
        Ok(Staged::Over) => return Ok(None),
        Err(fault) => return Err(fault),
    };
    match file_for(alloc, asked.dest, name, number, stat) {
        Ok(mut file) => {
            file.key.time = time_for(store.state(), asked, &file.key);
            Ok(Some(file))
        }
        Err(_) => Err(StoreFault::NoMemory),
    }
}

// One file more, if there is one.
fn add_file(files: &mut Vec<NewFile>, file: Option<NewFile>) -> Result<(), NoMemory>
    ensures { OnOk result (map entry_of files.new.items ≡ map entry_of files.old.items ++ listed (option_map entry_of file)) }
{
    if let Some(file) = file {
        files.push(file)?;
    }
    Ok(())
}

// Stages the files of these paths, but those that there aren't, or that can't be sent.
fn stage_files<D: Yard>(
    store: &mut NodeStore<D>,
    alloc: Global,
    asked: &Asked<'_>,
    paths: &[Bytes],
) -> Result<Vec<NewFile>, StoreFault>
    requires whole { store.old.memory.broken ≡ None }
    ensures so { StagesSo result (stand_of D.tells D.content D.fault_count D.moment D.images store.old) (stand_of D.tells D.content D.fault_count D.moment D.images store.new) }
    ensures batch { IfOk result (λ files. IsBatch (address asked.now.dest.now) (map entry_of files.items) (stand_of D.tells D.content D.fault_count D.moment D.images store.old).state (stand_of D.tells D.content D.fault_count D.moment D.images store.new).state) }
{
    let mut files = Vec::new(alloc);
    for path in paths {
        store.numbers_are_drawn();
        let file = match stage_file(store, alloc, asked, path) {
            Ok(file) => file,
            Err(fault) => return Err(fault),
        };
        if let Err(_) = add_file(&mut files, file) {
            return Err(StoreFault::NoMemory);
        }
    }
    Ok(files)
}

// Queues the files that a text asks for, and has the request answered with them.
fn answer_text<D: Yard>(
    store: &mut NodeStore<D>,
    alloc: Global,
    asked: &Asked<'_>,
    text: &[u8],
    shares: &[Share],
) -> Result<(), StoreFault>
    requires whole { store.old.memory.broken ≡ None }
    requires open { IsOpenRequest (Some asked.now.receipt) (stand_of D.tells D.content D.fault_count D.moment D.images store.old).state.stock.state.inbox }
    requires dest { IsAddress (address asked.now.dest.now) }
    ensures answers { Answers (stand_of D.tells D.content D.fault_count D.moment D.images store.old) (stand_of D.tells D.content D.fault_count D.moment D.images store.new) (want_in result) }
    ensures request { OnOk result (AnswersRequest asked.now.receipt (address asked.now.dest.now) (stand_of D.tells D.content D.fault_count D.moment D.images store.old).state (stand_of D.tells D.content D.fault_count D.moment D.images store.new).state) }
{
    let answer = match answer_request(alloc, text, shares) {
        Ok(answer) => answer,
        Err(_) => return Err(StoreFault::NoMemory),
    };
    let files = match stage_files(store, alloc, asked, answer.files.as_slice()) {
        Ok(files) => files,
        Err(fault) => return Err(fault),
    };
    match store.queue_all(alloc, None, Some(asked.receipt), files.as_slice()) {
        Ok(_) => Ok(()),
        Err(fault) => Err(fault),
    }
}

/// Answers a request: the files that it asks for, of those in the folders, are queued for who asked, and it is answered, in one
/// durable change. Where no place or no memory is left it waits as before.
pub(crate) fn answer<D: Yard>(
    store: &mut NodeStore<D>,
    alloc: Global,
    asked: &Asked<'_>,
    folders: &[Bytes],
) -> Result<(), StoreFault>
    requires whole { store.old.memory.broken ≡ None }
    requires kept { IsKept asked.now.receipt (stand_of D.tells D.content D.fault_count D.moment D.images store.old).state }
    requires open { IsOpenRequest (Some asked.now.receipt) (stand_of D.tells D.content D.fault_count D.moment D.images store.old).state.stock.state.inbox }
    requires dest { IsAddress (address asked.now.dest.now) }
    ensures answers { Answers (stand_of D.tells D.content D.fault_count D.moment D.images store.old) (stand_of D.tells D.content D.fault_count D.moment D.images store.new) (want_in result) }
    ensures request { OnOk result (AnswersRequest asked.now.receipt (address asked.now.dest.now) (stand_of D.tells D.content D.fault_count D.moment D.images store.old).state (stand_of D.tells D.content D.fault_count D.moment D.images store.new).state) }
{
    let text = match read_request(store, alloc, asked.receipt) {
        Ok(text) => text,
        Err(fault) => return Err(fault),
    };
    let shares = match shares_of(store, alloc, folders) {
        Ok(shares) => shares,
        Err(fault) => return Err(fault),
    };
    answer_text(store, alloc, asked, text.as_slice(), shares.as_slice())
}

// What was wanted, where a call is refused so.
fn want_of(fault: StoreFault) -> Option<Wanting>
    ensures { result ≡ want_in {T = Unit {0}} (Err fault) }
{
    match fault {
        StoreFault::Full => Some(Wanting::Places),
        StoreFault::NoMemory => Some(Wanting::Memory),
        _ => None,
    }
}

/// Answers each request of a sender that waits, up to the first for which something was wanted, or at which the disk failed.
pub(crate) fn answer_sender<D: Yard>(
    store: &mut NodeStore<D>,
    alloc: Global,
    from: &Addr,
    dest: &Addr,
    moment: u64,
    folders: &[Bytes],
) -> Option<Wanting>
    requires whole { store.old.memory.broken ≡ None }
    requires dest { IsAddress (address dest.now) }
    ensures { TakesIn (stand_of D.tells D.content D.fault_count D.moment D.images store.old) (stand_of D.tells D.content D.fault_count D.moment D.images store.new) result }
{
    let mut after = None;
    while let Some(receipt) = store.next_request(from, after) {
        let asked = Asked {
            receipt,
            dest,
            moment,
        };
        match answer(store, alloc, &asked, folders) {
            Ok(()) => (),
            Err(fault) => return want_of(fault),
        }
        if store.broken().is_some() {
            return None;
        }
        after = Some(receipt);
    }
    None
}

/// Answers each request of these senders that waits, for the first of them.
pub(crate) fn answer_senders<D: Yard>(
    store: &mut NodeStore<D>,
    alloc: Global,
    senders: &[Addr],
    moment: u64,
    folders: &[Bytes],
) -> Option<Wanting>
    requires whole { store.old.memory.broken ≡ None }
    requires limits { All IsAddress (map address senders.now) }
    ensures { TakesIn (stand_of D.tells D.content D.fault_count D.moment D.images store.old) (stand_of D.tells D.content D.fault_count D.moment D.images store.new) result }
{
    let Some(dest) = senders.first() else {
        return None;
    };
    for from in senders {
        if let Some(wanting) = answer_sender(store, alloc, from, dest, moment, folders) {
            return Some(wanting);
        }
        if store.broken().is_some() {
            return None;
        }
    }
    None
}

/// The receipt of the request that was received last, where it is that sender's and waits for its answer.
pub(crate) fn newest_request<D: Disk>(store: &NodeStore<D>, from: &Addr) -> Option<u32>
    requires { store.now.memory.broken ≡ None }
    ensures { IfSome result (λ receipt. (after : Option ℕ) × FirstWaiting (address from.now) (stand_of D.tells D.content D.fault_count D.moment D.images store.now).state.stock.state.inbox after receipt) }
{
    let item = store.state().inbox().last()?;
    if !is_request(item.key.name.as_slice()) {
        return None;
    }
    let receipt = item.receipt;
    match store.next_request(from, receipt.checked_sub(1)) {
        Some(next) if next == receipt => Some(next),
        _ => None,
    }
}
