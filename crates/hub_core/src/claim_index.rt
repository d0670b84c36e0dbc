//! Which seat has claimed which entry, found by the entry's number.
ghost use Rattle.std.specs.Prelude.{◌≡◌, ℕ, cond, None, Some, OnOk, OnErr, is_some};
ghost use Rattle.hub_core.specs.Indices.{claimer, is_just};

use ftn_addr::NoMemory;
use std::alloc::Global;
use std::collections::BTreeMap;

/// The seat of each claimed entry, by its number. A look-up takes no memory, and steps in proportion to the logarithm of
/// the claims.
#[derive(Drop)]
pub struct ClaimIndex {
    seats: BTreeMap<u32, u32>,
}

impl ClaimIndex {
    /// The index of no claim, which takes no memory.
    pub fn new(alloc: Global) -> ClaimIndex
        ensures { (n : ℕ) → claimer result n ≡ None }
    {
        ClaimIndex {
            seats: BTreeMap::new(alloc),
        }
    }

    /// Whether a seat has claimed that entry.
    pub fn has(&self, number: u32) -> bool
        ensures { result ≡ is_some (claimer self.now number) }
    {
        self.seats.contains_key(&number)
    }

    /// Notes the claim of a seat.
    pub fn note(&mut self, number: u32, seat: u32) -> Result<(), NoMemory>
        ensures noted { OnOk result ((n : ℕ) → claimer self.new n ≡ cond (is_just n (Some number)) (Some seat) (claimer self.old n)) }
        ensures kept { OnErr result ((n : ℕ) → claimer self.new n ≡ claimer self.old n) }
    {
        match self.seats.insert(number, seat) {
            Ok(_) => Ok(()),
            Err(_) => Err(NoMemory),
        }
    }

    /// Takes a claim out, where there is one. It takes no memory.
    pub fn remove(&mut self, claimed: Option<u32>)
        ensures { (n : ℕ) → claimer self.new n ≡ cond (is_just n claimed) None (claimer self.old n) }
    {
        if let Some(number) = claimed {
            self.seats.remove(&number);
        }
    }
}
