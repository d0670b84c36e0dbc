//! What a hub's session offers: the next entry that no session has claimed and this one hasn't skipped.
ghost use Rattle.std.specs.Prelude.{◌≡◌, ◌∷◌, [], true, false, map, option_copied, reverse};
ghost use Rattle.ftn_addr.specs.Address.{address};
ghost use Rattle.node_model.specs.SendRows.{rank};
ghost use Rattle.hub_core.specs.Indices.{KeptIf};
ghost use Rattle.hub_core.specs.Sending.{Comes, EarlierOf, NextFree};
ghost use Rattle.hub_core.specs.Skips.{AllBehind};

use crate::claim_index::ClaimIndex;
use crate::skips::Skips;
use ftn_addr::Addr;
use node_model::{Flavour, LivePlace, Store};

// Where a flavour stands, from the first to the last.
fn rank_of(flavour: Flavour) -> u8
    ensures { result ≡ rank flavour }
{
    match flavour {
        Flavour::Immediate => 0,
        Flavour::Crash => 1,
        Flavour::Direct => 2,
        Flavour::Normal => 3,
        Flavour::Hold => 4,
    }
}

// Whether an entry comes before another, by flavour and then by number.
fn is_before(a: LivePlace, b: LivePlace) -> bool
    ensures before { result ≡ true → Comes a b }
    ensures behind { result ≡ false → Comes b a }
{
    let first = rank_of(a.0);
    let second = rank_of(b.0);
    first < second || first == second && a.1 < b.1
}

fn earlier(a: Option<LivePlace>, b: Option<LivePlace>) -> Option<LivePlace>
    ensures { EarlierOf a b result }
{
    match (a, b) {
        (None, b) => b,
        (Some(a), None) => Some(a),
        (Some(a), Some(b)) => { if is_before(a, b) { Some(a) } else { Some(b) } }
    }
}

// Whether an entry is skipped, or, where claims count, claimed by a seat's session.
fn is_kept_back(claims: Option<&ClaimIndex>, skips: &Skips, number: u32) -> bool
    ensures back { result ≡ true → KeptIf (option_copied claims.entry) (reverse skips.now.list.items) number }
    ensures free { result ≡ false → KeptIf (option_copied claims.entry) (reverse skips.now.list.items) number → ⊥ }
{
    match claims {
        Some(claims) => claims.has(number) || skips.has(number),
        None => skips.has(number),
    }
}

// The first live entry for an address that isn't kept back, searched from a place on. It takes no memory.
fn next_free<S: Store>(
    store: &S,
    claims: Option<&ClaimIndex>,
    skips: &Skips,
    passed: Option<LivePlace>,
    dest: &Addr,
) -> Option<LivePlace>
    requires { AllBehind (address dest.now ∷ []) (reverse skips.now.list.items) (S.stand store.now).state.stock.state.queue passed }
    ensures { NextFree (address dest.now ∷ []) (KeptIf (option_copied claims.entry) (reverse skips.now.list.items)) (S.stand store.now).state.stock.state.queue result }
{
    let mut at = store.next_live(dest, passed);
    while let Some(place) = at {
        if !is_kept_back(claims, skips, place.1) {
            return Some(place);
        }
        at = store.next_live(dest, Some(place));
    }
    None
}

/// The first live entry for a peer that isn't skipped and, where claims count, that no session has claimed, by flavour
/// and then by number. It is searched from a place on that only skipped entries stand before. It takes no memory.
pub fn next_for<S: Store>(
    store: &S,
    claims: Option<&ClaimIndex>,
    skips: &Skips,
    passed: Option<LivePlace>,
    first: &Addr,
    others: &[Addr],
) -> Option<LivePlace>
    requires { AllBehind (address first.now ∷ map address others.now) (reverse skips.now.list.items) (S.stand store.now).state.stock.state.queue passed }
    ensures { NextFree (address first.now ∷ map address others.now) (KeptIf (option_copied claims.entry) (reverse skips.now.list.items)) (S.stand store.now).state.stock.state.queue result }
{
    let mut least = next_free(store, claims, skips, passed, first);
    for peer in others {
        least = earlier(least, next_free(store, claims, skips, passed, peer));
    }
    least
}
