//! What a hub does with the parts of its store: a few calls of the store with one outcome.
ghost use Rattle.std.specs.Prelude.{◌≡◌, ◌≢◌, ◌⊎◌, ◌+◌, ◌-◌, ◌<◌, ◌≤◌, ◌∷◌, [], length, IfOk, IfErr, OnOk, ⊤, Some, None};
ghost use Rattle.ftn_addr.specs.Address.{address};
ghost use Rattle.ftn_addr.specs.Key.{key_of};
ghost use Rattle.ftn_addr.specs.Limits.{IsAddress, IsKey};
ghost use Rattle.node_model.specs.declared.words.Known.TheVariants as K;
ghost use Rattle.node_model.specs.declared.store.StoreFault.TheVariants.{Read};
ghost use Rattle.node_model.specs.Desks.{fault_of};
ghost use Rattle.node_model.specs.Rows.{places_for, stride};
ghost use Rattle.node_model.specs.Stocks.{known_in};
ghost use Rattle.node_model.specs.StoreWords.{IsReason};
ghost use Rattle.node_model.specs.Stores.{refused, with_bytes};
ghost use Rattle.hub_core.specs.Hubs.{taking_of, sitting_of, claim_places_of};
ghost use Rattle.hub_core.specs.Steps.{Leaves, StaysSettled, BrokeBy, RefusedBy, OneOf, OneMade, HasOne, MayOpen, Holds, IfHolds, ended, left_state, OpensUnder, OpensFull, mark_len, hold_ended, loses_none, is_file, is_part, RefusesFile, LacksOne, file_refused_under, ReceivesWhole, OpensWhole, received_whole, hold_received, whole_taking, more_taking, reaches, marked_if, part_under, put_marked, put_received, fault_in};

use crate::DeskFault;
use crate::places::{Open, Taken};
use ftn_addr::{Addr, FileKey};
use node_model::{LEAST_STRIDE, MOST_RECORDS, PartAt, STRIDES, Store, StoreFault};
use std::alloc::Global;

/// The unmarked bytes after which a mark is made.
pub fn stride_of(size: u64) -> u64
    ensures { result ≡ stride size }
{
    size.div_ceil(STRIDES).max(LEAST_STRIDE)
}

/// The places that a file wants whose mark has so many bytes: one for its receipt, and one for each whole stride.
pub fn places_of(have: u64, size: u64) -> u32
    ensures { result ≡ places_for have size }
{
    1 + (size.saturating_sub(have) / stride_of(size)) as u32
}

/// How many bytes the mark of a sender's file has. It takes no memory.
pub fn marked_len<S: Store>(store: &S, from: &Addr, key: &FileKey) -> u64
    ensures { result ≡ mark_len (address from.now) (key_of key.now) (S.stand store.now).state }
{
    match store.mark_of(from, key) {
        Some(at) => at.len,
        None => 0,
    }
}

/// Marks what is held, and gives its places back. It takes no memory.
pub fn end_hold<S: Store>(store: &mut S, from: &Addr, taken: &Taken) -> Result<(), StoreFault>
    requires whole { (S.stand store.old).state.counts.broken ≡ None }
    requires holds { Holds (S.stand store.old).state (address from.now) (taking_of taken.now) }
    ensures ok { OnOk result ((S.stand store.new).state ≡ hold_ended (address from.now) (taking_of taken.now) (S.stand store.old).state) }
    ensures err { IfErr result (λ fault. BrokeBy (OneOf ((S.stand store.old).state.content ∷ (hold_ended (address from.now) (taking_of taken.now) (S.stand store.old).state).content ∷ [])) loses_none fault (S.stand store.old).state (S.stand store.new).state) }
    ensures leaves { Leaves (OneOf ((S.stand store.old).state.content ∷ (hold_ended (address from.now) (taking_of taken.now) (S.stand store.old).state).content ∷ [])) (S.stand store.old) (S.stand store.new) }
    ensures settled { StaysSettled (S.stand store.old) (S.stand store.new) }
{
    let ahead = marked_len(store, from, &taken.key) < taken.have;
    store.part_mark(taken.part)?;
    store.release(if ahead {
        taken.places - 1
    } else {
        taken.places
    });
    Ok(())
}

/// Reserves the places and opens a part under them. A refusal leaves no place reserved.
pub fn open_part<S: Store>(
    store: &mut S,
    alloc: Global,
    from: &Addr,
    key: &FileKey,
    places: u32,
) -> Result<PartAt, StoreFault>
    requires whole { (S.stand store.old).state.counts.broken ≡ None }
    requires address_limits { IsAddress (address from.now) }
    requires key_limits { IsKey (key_of key.now) }
    requires unknown { known_in (address from.now) (key_of key.now) (S.stand store.old).state.stock.state ≡ K.New }
    ensures ok { IfOk result (λ at. OpensUnder (address from.now) (key_of key.now) places at.part at.len (S.stand store.old).state (S.stand store.new).state) }
    ensures err { IfErr result (λ fault. RefusedBy (OneOf ((S.stand store.old).state.content ∷ [])) (is_file (address from.now) (key_of key.now)) (OpensFull (address from.now) (key_of key.now) places (S.stand store.old).state) fault (S.stand store.old).state (S.stand store.new).state) }
    ensures leaves { Leaves (OneOf ((S.stand store.old).state.content ∷ [])) (S.stand store.old) (S.stand store.new) }
    ensures settled { StaysSettled (S.stand store.old) (S.stand store.new) }
{
    store.reserve(places)?;
    match store.part_open(alloc, from, key) {
        Ok(at) => Ok(at),
        Err(StoreFault::Disk) => Err(StoreFault::Disk),
        Err(fault) => {
            store.release(places);
            Err(fault)
        }
    }
}

/// Notes that a sender's file is refused. A refusal of the store leaves no place reserved.
pub fn refuse_file<S: Store>(
    store: &mut S,
    alloc: Global,
    from: &Addr,
    key: &FileKey,
    session: u32,
    reason: u8,
) -> Result<(), StoreFault>
    requires whole { (S.stand store.old).state.counts.broken ≡ None }
    requires address_limits { IsAddress (address from.now) }
    requires key_limits { IsKey (key_of key.now) }
    requires unknown { known_in (address from.now) (key_of key.now) (S.stand store.old).state.stock.state ≡ K.New }
    requires session { session ≢ 0 }
    requires reason { IsReason reason }
    ensures ok { OnOk result (RefusesFile (address from.now) (key_of key.now) session reason (S.stand store.old).state (S.stand store.new).state) }
    ensures err { IfErr result (λ fault. RefusedBy (OneMade (S.stand store.old).state.content (HasOne (S.stand store.old).state) (file_refused_under (address from.now) (key_of key.now) session reason (S.stand store.old).state).content) (is_file (address from.now) (key_of key.now)) (LacksOne (S.stand store.old).state) fault (S.stand store.old).state (S.stand store.new).state) }
    ensures leaves { Leaves (OneMade (S.stand store.old).state.content (HasOne (S.stand store.old).state) (file_refused_under (address from.now) (key_of key.now) session reason (S.stand store.old).state).content) (S.stand store.old) (S.stand store.new) }
    ensures settled { StaysSettled (S.stand store.old) (S.stand store.new) }
{
    store.reserve(1)?;
    match store.refuse(alloc, from, key, session, reason) {
        Ok(()) => Ok(()),
        Err(StoreFault::Disk) => Err(StoreFault::Disk),
        Err(fault) => {
            store.release(1);
            Err(fault)
        }
    }
}

/// Receives a file whose mark has all its bytes. A refusal leaves no place reserved.
pub fn receive_marked<S: Store>(
    store: &mut S,
    alloc: Global,
    from: &Addr,
    key: &FileKey,
    session: u32,
    secure: bool,
) -> Result<(), StoreFault>
    requires whole { (S.stand store.old).state.counts.broken ≡ None }
    requires address_limits { IsAddress (address from.now) }
    requires key_limits { IsKey (key_of key.now) }
    requires unknown { known_in (address from.now) (key_of key.now) (S.stand store.old).state.stock.state ≡ K.New }
    requires session { session ≢ 0 }
    requires all { mark_len (address from.now) (key_of key.now) (S.stand store.old).state ≡ key.now.size }
    requires opens { OpensWhole (address from.now) (key_of key.now) (S.stand store.old).state }
    ensures ok { OnOk result (ReceivesWhole (address from.now) (key_of key.now) session secure (S.stand store.old).state (S.stand store.new).state) }
    ensures err { IfErr result (λ fault. RefusedBy (OneMade (S.stand store.old).state.content (MayOpen (address from.now) (key_of key.now) 1 (S.stand store.old).state) (received_whole (address from.now) (key_of key.now) session secure (S.stand store.old).state).content) (is_file (address from.now) (key_of key.now)) (OpensFull (address from.now) (key_of key.now) 1 (S.stand store.old).state) fault (S.stand store.old).state (S.stand store.new).state) }
    ensures leaves { Leaves (OneMade (S.stand store.old).state.content (MayOpen (address from.now) (key_of key.now) 1 (S.stand store.old).state) (received_whole (address from.now) (key_of key.now) session secure (S.stand store.old).state).content) (S.stand store.old) (S.stand store.new) }
    ensures settled { StaysSettled (S.stand store.old) (S.stand store.new) }
{
    let at = open_part(store, alloc, from, key, 1)?;
    match store.commit(at.part, session, secure) {
        Ok(()) => Ok(()),
        Err(fault) => Err(fault),
    }
}

/// Makes the part of a held file a receipt, once it has all its bytes, and gives back the places that it didn't use.
/// It takes no memory.
pub fn make_receipt<S: Store>(
    store: &mut S,
    from: &Addr,
    taken: &Taken,
    session: u32,
    secure: bool,
) -> Result<(), StoreFault>
    requires whole { (S.stand store.old).state.counts.broken ≡ None }
    requires holds { Holds (S.stand store.old).state (address from.now) (whole_taking (taking_of taken.now)) }
    requires session { session ≢ 0 }
    ensures ok { OnOk result ((S.stand store.new).state ≡ hold_received (address from.now) (whole_taking (taking_of taken.now)) session secure (S.stand store.old).state) }
    ensures err { IfErr result (λ fault. BrokeBy (OneOf ((S.stand store.old).state.content ∷ (hold_received (address from.now) (whole_taking (taking_of taken.now)) session secure (S.stand store.old).state).content ∷ [])) (is_part taken.now.part) fault (S.stand store.old).state (S.stand store.new).state) }
    ensures leaves { Leaves (OneOf ((S.stand store.old).state.content ∷ (hold_received (address from.now) (whole_taking (taking_of taken.now)) session secure (S.stand store.old).state).content ∷ [])) (S.stand store.old) (S.stand store.new) }
    ensures settled { StaysSettled (S.stand store.old) (S.stand store.new) }
{
    store.commit(taken.part, session, secure)?;
    store.release(taken.places - 1);
    Ok(())
}

/// Puts bytes behind those of a held file that came. It takes no memory.
pub fn put_bytes<S: Store>(
    store: &mut S,
    from: &Addr,
    taken: &Taken,
    bytes: &[u8],
) -> Result<(), StoreFault>
    requires whole { (S.stand store.old).state.counts.broken ≡ None }
    requires holds { Holds (S.stand store.old).state (address from.now) (taking_of taken.now) }
    requires some { taken.now.have + length bytes.now ≤ taken.now.key.size }
    ensures ok { OnOk result ((S.stand store.new).state ≡ with_bytes taken.now.part bytes.now (S.stand store.old).state) }
    ensures holds { OnOk result (Holds (S.stand store.new).state (address from.now) (more_taking (length bytes.now) (taking_of taken.now))) }
    ensures err { IfErr result (λ fault. BrokeBy (OneOf ((S.stand store.old).state.content ∷ [])) (is_part taken.now.part) fault (S.stand store.old).state (S.stand store.new).state) }
    ensures leaves { Leaves (OneOf ((S.stand store.old).state.content ∷ [])) (S.stand store.old) (S.stand store.new) }
    ensures settled { StaysSettled (S.stand store.old) (S.stand store.new) }
{
    store.part_put(taken.part, bytes)?;
    Ok(())
}

/// Puts the last bytes of a held file behind those that came, and makes it a receipt. It takes no memory.
pub fn put_last<S: Store>(
    store: &mut S,
    from: &Addr,
    taken: &Taken,
    bytes: &[u8],
    session: u32,
    secure: bool,
) -> Result<(), StoreFault>
    requires whole { (S.stand store.old).state.counts.broken ≡ None }
    requires holds { Holds (S.stand store.old).state (address from.now) (taking_of taken.now) }
    requires all { taken.now.have + length bytes.now ≡ taken.now.key.size }
    requires session { session ≢ 0 }
    ensures ok { OnOk result ((S.stand store.new).state ≡ put_received (address from.now) (taking_of taken.now) bytes.now session secure (S.stand store.old).state) }
    ensures err { IfErr result (λ fault. BrokeBy (OneOf ((S.stand store.old).state.content ∷ (put_received (address from.now) (taking_of taken.now) bytes.now session secure (S.stand store.old).state).content ∷ [])) (is_part taken.now.part) fault (S.stand store.old).state (S.stand store.new).state) }
    ensures leaves { Leaves (OneOf ((S.stand store.old).state.content ∷ (put_received (address from.now) (taking_of taken.now) bytes.now session secure (S.stand store.old).state).content ∷ [])) (S.stand store.old) (S.stand store.new) }
    ensures settled { StaysSettled (S.stand store.old) (S.stand store.new) }
{
    match put_bytes(store, from, taken, bytes) {
        Ok(()) => {}
        Err(fault) => return Err(fault),
    }
    match make_receipt(store, from, taken, session, secure) {
        Ok(()) => Ok(()),
        Err(fault) => Err(fault),
    }
}

/// Marks a held file of which so many more bytes came, where it reached its stride. It takes no memory.
pub fn mark_where<S: Store>(
    store: &mut S,
    from: &Addr,
    taken: &Taken,
    more: u64,
    reached: bool,
) -> Result<(), StoreFault>
    requires whole { (S.stand store.old).state.counts.broken ≡ None }
    requires holds { Holds (S.stand store.old).state (address from.now) (more_taking more (taking_of taken.now)) }
    ensures ok { OnOk result ((S.stand store.new).state ≡ marked_if reached (part_under (address from.now) (more_taking more (taking_of taken.now))) (S.stand store.old).state) }
    ensures err { IfErr result (λ fault. BrokeBy (OneOf ((S.stand store.old).state.content ∷ (marked_if reached (part_under (address from.now) (more_taking more (taking_of taken.now))) (S.stand store.old).state).content ∷ [])) loses_none fault (S.stand store.old).state (S.stand store.new).state) }
    ensures leaves { Leaves (OneOf ((S.stand store.old).state.content ∷ (marked_if reached (part_under (address from.now) (more_taking more (taking_of taken.now))) (S.stand store.old).state).content ∷ [])) (S.stand store.old) (S.stand store.new) }
    ensures settled { StaysSettled (S.stand store.old) (S.stand store.new) }
{
    let _more = more;
    if !reached {
        return Ok(());
    }
    match store.part_mark(taken.part) {
        Ok(()) => Ok(()),
        Err(fault) => Err(fault),
    }
}

/// Whether the unmarked bytes of a held file reach its stride, once so many more came.
pub fn reaches_stride<S: Store>(store: &S, from: &Addr, taken: &Taken, more: u64) -> bool
    requires { taken.now.have + more ≤ taken.now.key.size }
    ensures { result ≡ reaches (address from.now) (more_taking more (taking_of taken.now)) (S.stand store.now).state }
{
    let size = taken.key.size;
    let have = taken.have + more;
    let marked = marked_len(store, from, &taken.key);
    let stride = stride_of(size);
    stride <= have && marked <= have - stride
}

/// Puts bytes behind those of a held file of which more is to come, and marks it at a stride. It says whether it reached
/// that, and takes no memory.
pub fn put_more<S: Store>(
    store: &mut S,
    from: &Addr,
    taken: &Taken,
    bytes: &[u8],
) -> Result<bool, StoreFault>
    requires whole { (S.stand store.old).state.counts.broken ≡ None }
    requires holds { Holds (S.stand store.old).state (address from.now) (taking_of taken.now) }
    requires some { taken.now.have + length bytes.now ≤ taken.now.key.size }
    ensures reached { IfOk result (λ reached. reached ≡ reaches (address from.now) (more_taking (length bytes.now) (taking_of taken.now)) (S.stand store.old).state) }
    ensures ok { OnOk result ((S.stand store.new).state ≡ put_marked (address from.now) (taking_of taken.now) bytes.now (S.stand store.old).state) }
    ensures err { IfErr result (λ fault. BrokeBy (OneOf ((S.stand store.old).state.content ∷ (put_marked (address from.now) (taking_of taken.now) bytes.now (S.stand store.old).state).content ∷ [])) (is_part taken.now.part) fault (S.stand store.old).state (S.stand store.new).state) }
    ensures leaves { Leaves (OneOf ((S.stand store.old).state.content ∷ (put_marked (address from.now) (taking_of taken.now) bytes.now (S.stand store.old).state).content ∷ [])) (S.stand store.old) (S.stand store.new) }
    ensures settled { StaysSettled (S.stand store.old) (S.stand store.new) }
{
    match put_bytes(store, from, taken, bytes) {
        Ok(()) => {}
        Err(fault) => return Err(fault),
    }
    let more = bytes.len() as u64;
    let reached = reaches_stride(store, from, taken, more);
    match mark_where(store, from, taken, more, reached) {
        Ok(()) => Ok(reached),
        Err(fault) => Err(fault),
    }
}

/// Marks what a session holds, and gives its places back. It takes no memory.
pub fn end_held<S: Store>(store: &mut S, session: &Open) -> Result<(), StoreFault>
    requires whole { (S.stand store.old).state.counts.broken ≡ None }
    requires holds { IfHolds (S.stand store.old).state (sitting_of session.now).first (sitting_of session.now).hold }
    ensures ok { OnOk result ((S.stand store.new).state ≡ ended (sitting_of session.now).first (sitting_of session.now).hold (S.stand store.old).state) }
    ensures err { IfErr result (λ fault. BrokeBy (OneOf ((S.stand store.old).state.content ∷ (ended (sitting_of session.now).first (sitting_of session.now).hold (S.stand store.old).state).content ∷ [])) loses_none fault (S.stand store.old).state (S.stand store.new).state) }
    ensures leaves { Leaves (OneOf ((S.stand store.old).state.content ∷ (ended (sitting_of session.now).first (sitting_of session.now).hold (S.stand store.old).state).content ∷ [])) (S.stand store.old) (S.stand store.new) }
    ensures settled { StaysSettled (S.stand store.old) (S.stand store.new) }
{
    match &session.hold {
        Some(taken) => end_hold(store, &session.first, taken),
        None => Ok(()),
    }
}

/// Marks what a session holds, and gives its places and that of its claim back. It takes no memory.
pub fn end_session<S: Store>(store: &mut S, session: &Open) -> Result<(), StoreFault>
    requires whole { (S.stand store.old).state.counts.broken ≡ None }
    requires holds { IfHolds (S.stand store.old).state (sitting_of session.now).first (sitting_of session.now).hold }
    requires places { claim_places_of (sitting_of session.now).claim ≤ (ended (sitting_of session.now).first (sitting_of session.now).hold (S.stand store.old).state).reserved }
    ensures ok { OnOk result ((S.stand store.new).state ≡ left_state (sitting_of session.now) (S.stand store.old).state) }
    ensures err { IfErr result (λ fault. BrokeBy (OneOf ((S.stand store.old).state.content ∷ (left_state (sitting_of session.now) (S.stand store.old).state).content ∷ [])) loses_none fault (S.stand store.old).state (S.stand store.new).state) }
    ensures leaves { Leaves (OneOf ((S.stand store.old).state.content ∷ (left_state (sitting_of session.now) (S.stand store.old).state).content ∷ [])) (S.stand store.old) (S.stand store.new) }
    ensures settled { StaysSettled (S.stand store.old) (S.stand store.new) }
{
    match end_held(store, session) {
        Ok(()) => {}
        Err(fault) => return Err(fault),
    }
    if session.offers.claim.is_some() {
        store.release(1);
    }
    Ok(())
}

/// The records from now on are this seat's. It takes no memory.
pub fn take_turn<S: Store>(store: &mut S, seat: u32)
    ensures made { (S.stand store.new).state ≡ record (S.stand store.old).state { seat = seat } }
    ensures leaves { Leaves (OneOf ((S.stand store.old).state.content ∷ [])) (S.stand store.old) (S.stand store.new) }
    ensures settled { StaysSettled (S.stand store.old) (S.stand store.new) }
{
    store.by(seat);
}

/// Why a desk refuses where its store did, with the store's count where the disk failed. It is asked of no failed read.
pub fn refusal<S: Store>(store: &S, fault: StoreFault) -> DeskFault
    requires { fault ≢ Read }
    ensures { fault_of result ≡ fault_in fault (S.stand store.now).state.counts.faults }
{
    match fault {
        StoreFault::Disk => DeskFault::Disk(store.faults()),
        StoreFault::Read => unreachable!(),
        StoreFault::Full => DeskFault::Full,
        StoreFault::NoMemory => DeskFault::NoMemory,
    }
}

/// No session number is left: the store is asked for more places than a ledger has, so that it counts a refusal.
pub fn refuse_number<S: Store>(store: &mut S) -> StoreFault
    requires { (S.stand store.old).state.counts.broken ≡ None }
    ensures refused { RefusedBy (OneOf ((S.stand store.old).state.content ∷ [])) loses_none ⊤ result (S.stand store.old).state (S.stand store.new).state }
    ensures leaves { Leaves (OneOf ((S.stand store.old).state.content ∷ [])) (S.stand store.old) (S.stand store.new) }
    ensures settled { StaysSettled (S.stand store.old) (S.stand store.new) }
{
    match store.reserve(MOST_RECORDS + 1) {
        Ok(()) => unreachable!(),
        Err(fault) => fault,
    }
}
