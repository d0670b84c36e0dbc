//! What a hub does with the entry that a session claims: it is offered, read, settled or skipped.
ghost use Rattle.std.specs.Prelude.{◌≡◌, ◌≢◌, ◌<◌, ◌-◌, ◌∷◌, [], ℕ, List, cond, min, take, length, IfOk, IfErr, IfSome, OnErr, OnOk, IsSome, Some, None, option_map};
ghost use Rattle.ftn_addr.specs.Key.{key_of};
ghost use Rattle.ftn_addr.specs.Limits.{IsKey};
ghost use Rattle.node_model.specs.StoreWords.{HasEntry, KeyOf, size_of_entry};
ghost use Rattle.node_model.specs.Stores.{IsLive, settled};
ghost use Rattle.hub_core.specs.Hubs.{Chair, hub_state, sitting_of};
ghost use Rattle.hub_core.specs.Indices.{Claims, ClaimsOf, claimer, is_just};
ghost use Rattle.hub_core.specs.Steps.{Leaves, StaysSettled, BrokeBy, RefusedBy, OneOf, given_back, loses_none};
ghost use Rattle.hub_core.specs.Sending.{GoesOnFrom, NextOf, Offers as IsOffer, OffersFull, ReadRefused, ReadsBytes, claimed_sitting, unclaimed_sitting, claimed_at, claim_number, number_of, skipped_sitting, read_once_more};

use crate::claim_index::ClaimIndex;
use crate::places::{Claimed, Open, Seats};
use crate::seats::one_more;
use crate::sending::next_for;
use crate::{DeskFault, Offer};
use ftn_addr::{FileKey, NoMemory};
use node_model::{Flavour, LivePlace, Store, StoreFault};
use std::alloc::Global;

// Behind it no entry stands.
const LAST_PLACE: LivePlace = (Flavour::Hold, u32::MAX);

impl Open {
    // The place behind which its search goes on: right before the first entry for its peer that it hasn't skipped.
    fn pass<S: Store>(&self, store: &S) -> Option<LivePlace>
        requires { GoesOnFrom (sitting_of self.now) (S.stand store.now).state (sitting_of self.now).passed }
        ensures { GoesOnFrom (sitting_of self.now) (S.stand store.now).state result }
    {
        let offers = &self.offers;
        match next_for(
            store,
            None,
            &offers.skips,
            offers.passed,
            &self.first,
            &self.others,
        ) {
            Some((flavour, number)) if 0 < number => Some((flavour, number - 1)),
            Some(_) => offers.passed,
            None => Some(LAST_PLACE),
        }
    }

    // The first entry for its peer that no session has claimed and this one hasn't skipped.
    fn next<S: Store>(
        &self,
        store: &S,
        claims: &ClaimIndex,
        passed: Option<LivePlace>,
    ) -> Option<LivePlace>
        requires { GoesOnFrom (sitting_of self.now) (S.stand store.now).state passed }
        ensures next { (chairs : List Chair) → ClaimsOf claims.now chairs → NextOf chairs (sitting_of self.now) (S.stand store.now).state result }
        ensures queued { IfSome result (λ at. HasEntry at.1 (S.stand store.now).state.stock.state.queue) }
        ensures free { IfSome result (λ at. claimer claims.now at.1 ≡ None) }
    {
        let offers = &self.offers;
        next_for(
            store,
            Some(claims),
            &offers.skips,
            passed,
            &self.first,
            &self.others,
        )
    }

    /// The number of the entry that it has claimed.
    pub fn claimed(&self) -> Option<u32>
        ensures { result ≡ option_map number_of (sitting_of self.now).claim }
    {
        match &self.offers.claim {
            Some(claim) => Some(claim.number),
            None => None,
        }
    }

    /// Ends its claim and notes the entry as skipped. It takes no memory.
    pub fn skip(&mut self)
        requires { IsSome (sitting_of self.old).claim }
        ensures { sitting_of self.new ≡ skipped_sitting (claim_number (sitting_of self.old).claim) (sitting_of self.old) }
    {
        let Some(number) = self.claimed() else {
            unreachable!();
        };
        let offers = &mut self.offers;
        offers.claim = None;
        offers.skips.add(number);
    }

    // Claims an entry for a seat, with room for the note of a skip, and copies its key.
    fn claim<S: Store>(
        &mut self,
        store: &S,
        alloc: Global,
        claims: &mut ClaimIndex,
        seat: u32,
        number: u32,
    ) -> Result<FileKey, NoMemory>
        requires { HasEntry number (S.stand store.now).state.stock.state.queue }
        ensures keyed { IfOk result (λ key. KeyOf number (key_of key) (S.stand store.now).state.stock.state.queue) }
        ensures limits { IfOk result (λ key. IsKey (key_of key)) }
        ensures claimed { IfOk result (λ key. sitting_of self.new ≡ claimed_sitting number (key_of key) (sitting_of self.old)) }
        ensures kept { OnErr result (sitting_of self.new ≡ sitting_of self.old) }
        ensures noted { OnOk result ((n : ℕ) → claimer claims.new n ≡ cond (is_just n (Some number)) (Some seat) (claimer claims.old n)) }
        ensures unnoted { OnErr result ((n : ℕ) → claimer claims.new n ≡ claimer claims.old n) }
    {
        let key = store.key_of(number);
        let offered = key.copy(alloc)?;
        let noted = key.copy(alloc)?;
        self.offers.skips.make_room(number)?;
        claims.note(number, seat)?;
        self.offers.claim = Some(Claimed { number, key: noted });
        Ok(offered)
    }
}

/// Claims the next entry for the session of a seat, which has claimed none, under a place of its own. A refusal leaves
/// no place reserved.
pub fn claim_next<S: Store>(
    store: &mut S,
    alloc: Global,
    claims: &mut ClaimIndex,
    seat: u32,
    session: &mut Open,
) -> Result<Offer, StoreFault>
    requires whole { (S.stand store.old).state.counts.broken ≡ None }
    requires passed { GoesOnFrom (sitting_of session.old) (S.stand store.old).state (sitting_of session.old).passed }
    ensures ok { (chairs : List Chair) → ClaimsOf claims.old chairs → IfOk result (λ offer. IsOffer chairs (sitting_of session.old) offer (S.stand store.old).state (S.stand store.new).state (sitting_of session.new)) }
    ensures err { (chairs : List Chair) → ClaimsOf claims.old chairs → IfErr result (λ fault. RefusedBy (OneOf ((S.stand store.old).state.content ∷ [])) loses_none (OffersFull chairs (sitting_of session.old) (S.stand store.old).state) fault (S.stand store.old).state (S.stand store.new).state) }
    ensures kept { OnErr result (sitting_of session.new ≡ sitting_of session.old) }
    ensures claims { IfOk result (λ offer. Claims seat offer claims.old claims.new) }
    ensures unnoted { OnErr result ((n : ℕ) → claimer claims.new n ≡ claimer claims.old n) }
    ensures leaves { Leaves (OneOf ((S.stand store.old).state.content ∷ [])) (S.stand store.old) (S.stand store.new) }
    ensures settled { StaysSettled (S.stand store.old) (S.stand store.new) }
{
    let passed = session.pass(store);
    let Some(next) = session.next(store, claims, passed) else {
        session.offers.passed = passed;
        return Ok(Offer::Nothing);
    };
    match store.reserve(1) {
        Ok(()) => {}
        Err(fault) => return Err(fault),
    }
    match session.claim(store, alloc, claims, seat, next.1) {
        Ok(key) => {
            session.offers.passed = passed;
            Ok(Offer::File(next.1, key))
        }
        Err(NoMemory) => {
            store.release(1);
            Err(StoreFault::NoMemory)
        }
    }
}

impl Seats {
    /// The number of the entry that the session of a seat has claimed.
    pub fn claimed(&self, seat: u32) -> Option<u32>
        requires { seat < length (hub_state self.now).chairs }
        ensures { result ≡ claimed_at (hub_state self.now) seat }
    {
        let place = &self.places[seat as usize];
        match &place.session {
            Some(session) => session.claimed(),
            None => None,
        }
    }

    /// Counts a read that failed.
    pub fn count_read(&mut self, seat: u32)
        requires { seat < length (hub_state self.old).chairs }
        ensures { hub_state self.new ≡ read_once_more seat (hub_state self.old) }
    {
        let place = &mut self.places[seat as usize];
        place.reads = one_more(place.reads);
    }
}

/// Settles the entry that a session has claimed, whose place the record uses. It takes no memory.
pub fn settle_claim<S: Store>(
    store: &mut S,
    claims: &mut ClaimIndex,
    session: &mut Open,
) -> Result<(), StoreFault>
    requires whole { (S.stand store.old).state.counts.broken ≡ None }
    requires claimed { IsSome (sitting_of session.old).claim }
    requires live { IsLive (claim_number (sitting_of session.old).claim) (S.stand store.old).state }
    requires place { 0 < (S.stand store.old).state.reserved }
    requires number { session.old.number ≢ 0 }
    ensures ok { OnOk result ((S.stand store.new).state ≡ settled (claim_number (sitting_of session.old).claim) session.old.number (S.stand store.old).state) }
    ensures unclaimed { OnOk result (sitting_of session.new ≡ unclaimed_sitting (sitting_of session.old)) }
    ensures err { IfErr result (λ fault. BrokeBy (OneOf ((S.stand store.old).state.content ∷ (settled (claim_number (sitting_of session.old).claim) session.old.number (S.stand store.old).state).content ∷ [])) loses_none fault (S.stand store.old).state (S.stand store.new).state) }
    ensures kept { OnErr result (sitting_of session.new ≡ sitting_of session.old) }
    ensures removed { OnOk result ((n : ℕ) → claimer claims.new n ≡ cond (is_just n (option_map number_of (sitting_of session.old).claim)) None (claimer claims.old n)) }
    ensures unremoved { OnErr result ((n : ℕ) → claimer claims.new n ≡ claimer claims.old n) }
    ensures leaves { Leaves (OneOf ((S.stand store.old).state.content ∷ (settled (claim_number (sitting_of session.old).claim) session.old.number (S.stand store.old).state).content ∷ [])) (S.stand store.old) (S.stand store.new) }
    ensures settled { StaysSettled (S.stand store.old) (S.stand store.new) }
{
    let Some(number) = session.claimed() else {
        unreachable!();
    };
    match store.done(number, session.number) {
        Ok(()) => {
            claims.remove(Some(number));
            session.offers.claim = None;
            Ok(())
        }
        Err(fault) => Err(fault),
    }
}

/// Reads the bytes of an entry from a place on, as many as fit. It takes no memory.
pub fn read_entry<S: Store>(
    store: &mut S,
    number: u32,
    at: u64,
    out: &mut [u8],
) -> Result<usize, StoreFault>
    requires whole { (S.stand store.old).state.counts.broken ≡ None }
    requires live { IsLive number (S.stand store.old).state }
    ensures ok { IfOk result (λ count. ReadsBytes number at (length out.old) (take count out.new) (S.stand store.old).state (S.stand store.new).state) }
    ensures length { IfOk result (λ count. count ≡ min (length out.old) (size_of_entry number (S.stand store.old).state.stock.state.queue - at)) }
    ensures err { IfErr result (λ fault. ReadRefused fault (S.stand store.old).state (S.stand store.new).state) }
    ensures leaves { Leaves (OneOf ((S.stand store.old).state.content ∷ [])) (S.stand store.old) (S.stand store.new) }
    ensures settled { StaysSettled (S.stand store.old) (S.stand store.new) }
{
    match store.read_source(number, at, out) {
        Ok(count) => Ok(count),
        Err(fault) => Err(fault),
    }
}

/// Gives the place of a claim back. It takes no memory.
pub fn give_place<S: Store>(store: &mut S)
    requires whole { (S.stand store.old).state.counts.broken ≡ None }
    requires place { 0 < (S.stand store.old).state.reserved }
    ensures made { (S.stand store.new).state ≡ given_back 1 (S.stand store.old).state }
    ensures leaves { Leaves (OneOf ((S.stand store.old).state.content ∷ [])) (S.stand store.old) (S.stand store.new) }
    ensures settled { StaysSettled (S.stand store.old) (S.stand store.new) }
{
    store.release(1);
}
