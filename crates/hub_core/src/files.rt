//! What a session does with a file that it is offered, while it holds none.
ghost use Rattle.std.specs.Prelude.{◌≡◌, ◌≢◌, ◌∷◌, [], IfOk, IfErr, OnOk, Some, None};
ghost use Rattle.ftn_addr.specs.Address.{address};
ghost use Rattle.ftn_addr.specs.Key.{key_of};
ghost use Rattle.ftn_addr.specs.Limits.{IsAddress, IsKey};
ghost use Rattle.node_model.specs.declared.words.Known.TheVariants as K;
ghost use Rattle.node_model.specs.Rows.{reason};
ghost use Rattle.node_model.specs.Stocks.{known_in};
ghost use Rattle.hub_core.specs.Holders.{HoldsOf};
ghost use Rattle.hub_core.specs.Hubs.{hub_state, settings_of, sitting_of, with_sitting};
ghost use Rattle.hub_core.specs.HubCalls.{HasTurn, Does};
ghost use Rattle.node_model.specs.Calls.{File_call};
ghost use Rattle.node_model.specs.Desks.{file_answer};
ghost use Rattle.hub_core.specs.Steps.{Leaves, StaysSettled, RefusedBy, OneOf, OneMade, MayAnswer, MayBeMade, Answered, CallsStore, FindsNone, answered_state, OpensFull, TakesUp, NotesMissed, mark_len, is_file, places_from};

use crate::hold_index::HoldIndex;
use crate::parts::{end_held, open_part, places_of, receive_marked, refusal, refuse_file};
use crate::places::{HubConf, Open, Seats, Taken};
use crate::{DeskFault, FileIn};
use ftn_addr::{FileKey, NoMemory};
use node_model::{Store, StoreFault};
use std::alloc::Global;

/// Holds a file whose mark has so many bytes, with places for its records.
pub fn hold_file<S: Store>(
    store: &mut S,
    alloc: Global,
    session: &mut Open,
    key: &FileKey,
    have: u64,
    taking: bool,
) -> Result<(), StoreFault>
    requires whole { (S.stand store.old).state.counts.broken ≡ None }
    requires first { IsAddress (sitting_of session.old).first }
    requires limits { IsKey (key_of key.now) }
    requires unknown { known_in (sitting_of session.old).first (key_of key.now) (S.stand store.old).state.stock.state ≡ K.New }
    requires marked { have ≡ mark_len (sitting_of session.old).first (key_of key.now) (S.stand store.old).state }
    ensures ok { OnOk result (TakesUp (key_of key.now) taking (S.stand store.old).state (sitting_of session.old) (S.stand store.new).state (sitting_of session.new)) }
    ensures err { IfErr result (λ fault. RefusedBy (OneOf ((S.stand store.old).state.content ∷ [])) (is_file (sitting_of session.old).first (key_of key.now)) (OpensFull (sitting_of session.old).first (key_of key.now) (places_from (sitting_of session.old).first (key_of key.now) (S.stand store.old).state) (S.stand store.old).state) fault (S.stand store.old).state (S.stand store.new).state) }
    ensures same { IfErr result (λ fault. sitting_of session.new ≡ sitting_of session.old) }
    ensures missed { session.new.missed ≡ session.old.missed }
    ensures leaves { Leaves (OneOf ((S.stand store.old).state.content ∷ [])) (S.stand store.old) (S.stand store.new) }
    ensures settled { StaysSettled (S.stand store.old) (S.stand store.new) }
{
    let kept = key.copy(alloc)?;
    let places = places_of(have, key.size);
    match open_part(store, alloc, &session.first, key, places) {
        Ok(at) => {
            session.hold = Some(Taken {
                part: at.part,
                key: kept,
                have: at.len,
                taking,
                places,
                dropped: false,
            });
            Ok(())
        }
        Err(fault) => Err(fault),
    }
}

/// Holds a file that is to be offered from the place that its mark has, and notes that it once wasn't.
pub fn hold_missed<S: Store>(
    store: &mut S,
    alloc: Global,
    session: &mut Open,
    key: &FileKey,
    have: u64,
) -> Result<(), StoreFault>
    requires whole { (S.stand store.old).state.counts.broken ≡ None }
    requires first { IsAddress (sitting_of session.old).first }
    requires limits { IsKey (key_of key.now) }
    requires unknown { known_in (sitting_of session.old).first (key_of key.now) (S.stand store.old).state.stock.state ≡ K.New }
    requires marked { have ≡ mark_len (sitting_of session.old).first (key_of key.now) (S.stand store.old).state }
    ensures ok { OnOk result (NotesMissed (key_of key.now) (S.stand store.old).state (sitting_of session.old) (S.stand store.new).state (sitting_of session.new)) }
    ensures err { IfErr result (λ fault. RefusedBy (OneOf ((S.stand store.old).state.content ∷ [])) (is_file (sitting_of session.old).first (key_of key.now)) (OpensFull (sitting_of session.old).first (key_of key.now) (places_from (sitting_of session.old).first (key_of key.now) (S.stand store.old).state) (S.stand store.old).state) fault (S.stand store.old).state (S.stand store.new).state) }
    ensures same { IfErr result (λ fault. sitting_of session.new ≡ sitting_of session.old) }
    ensures leaves { Leaves (OneOf ((S.stand store.old).state.content ∷ [])) (S.stand store.old) (S.stand store.new) }
    ensures settled { StaysSettled (S.stand store.old) (S.stand store.new) }
{
    let noted = key.copy(alloc)?;
    if session.missed.reserve(1).is_err() {
        return Err(StoreFault::NoMemory);
    }
    match hold_file(store, alloc, session, key, have, false) {
        Ok(()) => match session.missed.insert(0, noted) {
            Ok(()) => Ok(()),
            Err(_) => unreachable!(),
        },
        Err(fault) => Err(fault),
    }
}

/// Does what was judged of a file. A refusal changes nothing but the store's counts.
pub fn answer<S: Store>(
    store: &mut S,
    conf: &HubConf,
    alloc: Global,
    session: &mut Open,
    key: &FileKey,
    offset: u64,
    word: FileIn,
) -> Result<(), StoreFault>
    requires whole { (S.stand store.old).state.counts.broken ≡ None }
    requires first { IsAddress (sitting_of session.old).first }
    requires number { session.old.number ≢ 0 }
    requires limits { IsKey (key_of key.now) }
    requires may { MayAnswer word (key_of key.now) offset (sitting_of session.old) (S.stand store.old).state }
    ensures ok { OnOk result (Answered word (key_of key.now) (reason (settings_of conf.now) (key_of key.now)) (S.stand store.old).state (sitting_of session.old) (S.stand store.new).state (sitting_of session.new)) }
    ensures err { IfErr result (λ fault. RefusedBy (OneMade (S.stand store.old).state.content (MayBeMade word (key_of key.now) (sitting_of session.old) (S.stand store.old).state) (answered_state word (key_of key.now) (reason (settings_of conf.now) (key_of key.now)) (sitting_of session.old) (S.stand store.old).state).content) (is_file (sitting_of session.old).first (key_of key.now)) (FindsNone word (key_of key.now) (sitting_of session.old) (S.stand store.old).state) fault (S.stand store.old).state (S.stand store.new).state) }
    ensures asks { IfErr result (λ fault. CallsStore word) }
    ensures same { IfErr result (λ fault. sitting_of session.new ≡ sitting_of session.old) }
    ensures leaves { Leaves (OneMade (S.stand store.old).state.content (MayBeMade word (key_of key.now) (sitting_of session.old) (S.stand store.old).state) (answered_state word (key_of key.now) (reason (settings_of conf.now) (key_of key.now)) (sitting_of session.old) (S.stand store.old).state).content) (S.stand store.old) (S.stand store.new) }
    ensures settled { StaysSettled (S.stand store.old) (S.stand store.new) }
{
    match word {
        FileIn::Have => Ok(()),
        FileIn::Elsewhere => Ok(()),
        FileIn::Late => Ok(()),
        FileIn::Refuse => {
            let reason = conf.reason(key);
            refuse_file(store, alloc, &session.first, key, session.number, reason)
        }
        FileIn::Whole => {
            let number = session.number;
            let secure = session.secure;
            receive_marked(store, alloc, &session.first, key, number, secure)
        }
        FileIn::Go => hold_file(store, alloc, session, key, offset, true),
        FileIn::From(place) => hold_missed(store, alloc, session, key, place),
    }
}

/// A file is offered to the session of a seat, which is out of it: what it holds ends, and the file gets its answer.
pub fn offer_file<S: Store>(
    store: &mut S,
    seats: &Seats,
    holds: &mut HoldIndex,
    seat: u32,
    alloc: Global,
    session: &mut Open,
    key: &FileKey,
    offset: u64,
) -> Result<FileIn, DeskFault>
    requires turn { HasTurn (S.stand store.old) (with_sitting seat (Some (sitting_of session.old)) (hub_state seats.now)) seat }
    requires limits { IsKey (key_of key.now) }
    requires finds { HoldsOf holds.old (with_sitting seat (Some (sitting_of session.old)) (hub_state seats.now)).chairs }
    ensures does { Does (S.stand store.old) (with_sitting seat (Some (sitting_of session.old)) (hub_state seats.now)) seat (File_call (key_of key.now) offset) (file_answer result) (S.stand store.new) (with_sitting seat (Some (sitting_of session.new)) (hub_state seats.now)) }
    ensures finds { HoldsOf holds.new (with_sitting seat (Some (sitting_of session.new)) (hub_state seats.now)).chairs }
{
    let ended = end_held(store, session);
    holds.release(session);
    session.hold = None;
    if let Err(fault) = ended {
        return Err(refusal(store, fault));
    }
    let word = seats.judge(store, holds, seat, session, key, offset);
    if let Err(NoMemory) = holds.take_up(word, &session.first, key, seat) {
        return Err(DeskFault::NoMemory);
    }
    match answer(store, &seats.conf, alloc, session, key, offset, word) {
        Ok(()) => Ok(word),
        Err(fault) => {
            holds.give_up(word, &session.first, key);
            Err(refusal(store, fault))
        }
    }
}
