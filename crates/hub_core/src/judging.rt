//! What a hub answers to a file, before anything is done with it.
ghost use Rattle.std.specs.Prelude.{◌≡◌, ◌≢◌, ◌≤◌, ◌<◌, map, true, false, Some, None, count_by, length};
ghost use Rattle.std.specs.List.{list_any};
ghost use Rattle.ftn_addr.specs.Address.{address};
ghost use Rattle.ftn_addr.specs.Key.{key_of, same_key};
ghost use Rattle.node_model.specs.Rows.{Applies, ends_with, is_answering, name_refused as is_name_refused, refuses as is_refused, reason as reason_of};
ghost use Rattle.node_model.specs.Stocks.{known_in};
ghost use Rattle.node_model.specs.Stores.{Stored};
ghost use Rattle.hub_core.specs.Holders.{HoldsOf, holder, takes};
ghost use Rattle.hub_core.specs.Hubs.{Sitting, sitting_of, hub_state, settings_of, node_with, session_over, with_sitting};
ghost use Rattle.hub_core.specs.Steps.{HeldBy, place_answers, Judged, is_new, was_missed, mark_len, word_of};

use crate::FileIn;
use crate::hold_index::HoldIndex;
use crate::parts::marked_len;
use crate::places::{HubConf, Open, Place, Seats};
use ftn_addr::{Addr, Bytes, FileKey, is_same_key, is_same_word};
use node_model::{Known, Role, Store};

// Whether a name ends so, ASCII case ignored.
fn has_end(name: &[u8], text: &[u8]) -> bool
    ensures { result ≡ ends_with name.now text.now }
{
    text.len() <= name.len() && is_same_word(&name[name.len() - text.len()..], text)
}

fn has_refused_end(name: &[u8], texts: &[Bytes]) -> bool
    ensures { result ≡ list_any (λ b. ends_with name.now b.list) texts.now }
{
    texts.iter().any(|text| has_end(name, text.as_slice()))
}

impl HubConf {
    /// Whether a name is refused.
    pub fn is_name_refused(&self, key: &FileKey) -> bool
        ensures { result ≡ is_name_refused (settings_of self.now) (key_of key.now) }
    {
        has_refused_end(key.name.as_slice(), &self.refuse_names)
    }

    /// Whether a file is refused, by its name or by its size.
    pub fn is_refused(&self, key: &FileKey) -> bool
        ensures { result ≡ is_refused (settings_of self.now) (key_of key.now) }
    {
        self.is_name_refused(key) || self.refuse_over < key.size
    }

    /// Why a refused file is refused: 1 its name, 2 its size.
    pub fn reason(&self, key: &FileKey) -> u8
        ensures { result ≡ reason_of (settings_of self.now) (key_of key.now) }
    {
        if self.is_name_refused(key) { 1 } else { 2 }
    }
}

impl Place {
    /// Whether an answering session is open here.
    #[tactic(auto, unfolding(crate::specs::Steps::place_answers))]
    pub fn is_answering(&self) -> bool
        ensures { result ≡ place_answers self.now }
    {
        match &self.session {
            Some(session) => match session.role {
                Role::Answers => true,
                Role::Calls => false,
            },
            None => false,
        }
    }
}

// How many answering sessions are open.
pub fn answering(places: &[Place]) -> usize
    ensures { result ≡ count_by place_answers places.now }
{
    let mut count = 0;
    for place in places {
        if place.is_answering() {
            count += 1;
        }
    }
    count
}

fn has_missed(missed: &[FileKey], key: &FileKey) -> bool
    ensures { result ≡ list_any (λ k. same_key (key_of key.now) (key_of k)) missed.now }
{
    missed.iter().any(|other| is_same_key(key, other))
}

// Whether a sender's file was neither received nor refused.
fn is_unknown<S: Store>(store: &S, from: &Addr, key: &FileKey) -> bool
    ensures { result ≡ is_new (known_in (address from.now) (key_of key.now) (S.stand store.now).state.stock.state) }
{
    match store.known(from, key) {
        Known::New => true,
        Known::Received => false,
        Known::Refused => false,
    }
}

impl Open {
    // Whether the key was once not offered from the place that was asked for.
    fn has_missed(&self, key: &FileKey) -> bool
        ensures { result ≡ was_missed (key_of key.now) (sitting_of self.now) }
    {
        has_missed(&self.missed, key)
    }
}

impl Seats {
    // Whether another seat's session holds that file of the sender of a session that is out of its seat.
    fn is_held_elsewhere(&self, holds: &HoldIndex, seat: u32, session: &Open, key: &FileKey) -> bool
        requires unheld { (sitting_of session.now).hold ≡ None }
        requires finds { HoldsOf holds.now (with_sitting seat (Some (sitting_of session.now)) (hub_state self.now)).chairs }
        ensures held { result ≡ true → HeldBy (hub_state self.now).chairs seat (sitting_of session.now).first (key_of key.now) }
        ensures free { result ≡ false → HeldBy (hub_state self.now).chairs seat (sitting_of session.now).first (key_of key.now) → ⊥ }
        ensures none { result ≡ false → holder holds.now (sitting_of session.now).first (key_of key.now) ≡ None }
    {
        let _seat = seat;
        holds.has(&session.first, key)
    }

    /// What is answered to a file that the session of a seat, which is out of it, is offered from that place, while it
    /// holds nothing.
    pub fn judge<S: Store>(
        &self,
        store: &S,
        holds: &HoldIndex,
        seat: u32,
        session: &Open,
        key: &FileKey,
        offset: u64,
    ) -> FileIn
        requires unheld { (sitting_of session.now).hold ≡ None }
        requires finds { HoldsOf holds.now (with_sitting seat (Some (sitting_of session.now)) (hub_state self.now)).chairs }
        ensures judged { Judged seat (sitting_of session.now) (key_of key.now) offset result (S.stand store.now).state (hub_state self.now) }
        ensures none { takes result ≡ true → holder holds.now (sitting_of session.now).first (key_of key.now) ≡ None }
    {
        if !is_unknown(store, &session.first, key) {
            return FileIn::Have;
        }
        if self.conf.is_refused(key) {
            return FileIn::Refuse;
        }
        if self.is_held_elsewhere(holds, seat, session, key) {
            return FileIn::Elsewhere;
        }
        let have = marked_len(store, &session.first, key);
        if offset != have {
            return if session.has_missed(key) {
                FileIn::Late
            } else {
                FileIn::From(have)
            };
        }
        if offset < key.size {
            FileIn::Go
        } else {
            FileIn::Whole
        }
    }
}
