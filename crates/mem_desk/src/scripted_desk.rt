//! A desk with at most one file to offer, which answers as it is told.
ghost use Rattle.std.specs.Prelude.{◌≡◌, None, Some, false, true};
ghost use Rattle.ftn_addr.specs.Counts.{Increased};
ghost use Rattle.ftn_addr.specs.Key.{key_of};
ghost use Rattle.ftn_addr.specs.Limits.{IsKey};
ghost use Rattle.node_model.specs.Desks.{size_in};

mod calls;

use crate::coming::Coming;
use ftn_addr::FileKey;
use node_model::{FileIn, Role};

/// What becomes of a call that can be refused so.
#[derive(Clone, Copy, Debug, PartialEq, Eq)]
pub enum Next {
    Works,
    DiskFails,
    ReadFails,
    IsFull,
    NoMemory,
}

/// What the bytes of every file are: a byte at each place, or the remainder of the place by 251.
#[derive(Clone, Copy, Debug, PartialEq, Eq)]
pub enum Filling {
    Same(u8),
    Places,
}

/// A desk of one seat, over nothing.
#[derive(Debug, Drop)]
pub struct ScriptedDesk {
    queued: Option<(u32, FileKey)>,
    claim: Option<(u32, FileKey)>,
    coming: Option<Coming>,
    in_session: bool,
    filling: Filling,
    next: Next,
    answer: FileIn,
    begun: Option<(Role, usize, bool)>,
    settled: u32,
    skipped: u32,
    taken: u64,
    receipts: u32,
    faults: u64,
    fulls: u64,
    broken: Option<u64>,
    reads: u64,
}

/// The byte of every file at a place.
pub fn byte_at(place: u64) -> u8 {
    (place % 251) as u8
}

impl ScriptedDesk {
    ghost use Rattle.mem_desk.specs.DeskStates.{claimed, idle, part_of};

    /// A desk before its session, with nothing to offer.
    pub fn new(filling: Filling) -> ScriptedDesk
        ensures { part_of result ≡ idle false }
    {
        ScriptedDesk {
            queued: None,
            claim: None,
            coming: None,
            in_session: false,
            filling,
            next: Next::Works,
            answer: FileIn::Go,
            begun: None,
            settled: 0,
            skipped: 0,
            taken: 0,
            receipts: 0,
            faults: 0,
            fulls: 0,
            broken: None,
            reads: 0,
        }
    }

    /// A desk whose session is open, with nothing to offer.
    pub fn in_session(filling: Filling) -> ScriptedDesk
        ensures { part_of result ≡ idle true }
    {
        let mut desk = ScriptedDesk::new(filling);
        desk.in_session = true;
        desk
    }

    /// That file waits for the peer, as entry 7.
    pub fn queue(&mut self, key: FileKey)
        ensures { part_of self.new ≡ part_of self.old }
    {
        self.queued = Some((7, key));
    }

    /// What becomes of the calls that can be refused so.
    pub fn set_next(&mut self, next: Next)
        ensures { part_of self.new ≡ part_of self.old }
    {
        self.next = next;
    }

    /// What becomes of the next file that the peer offers.
    pub fn set_answer(&mut self, answer: FileIn)
        ensures { part_of self.new ≡ part_of self.old }
    {
        self.answer = answer;
    }

    /// As what the session began, with how many addresses of the peer's, and whether it is secure.
    pub fn begun(&self) -> Option<(Role, usize, bool)> {
        self.begun
    }

    /// The number of the entry that was settled last; 0 where there is none.
    pub fn settled(&self) -> u32 {
        self.settled
    }

    /// The number of the entry that was skipped last; 0 where there is none.
    pub fn skipped(&self) -> u32 {
        self.skipped
    }

    /// How many bytes were taken.
    pub fn taken(&self) -> u64 {
        self.taken
    }

    /// How many files were received.
    pub fn receipts(&self) -> u32 {
        self.receipts
    }

    /// Its count of faults where it is broken.
    pub fn broken(&self) -> Option<u64>
        ensures { result ≡ self.now.broken }
    {
        self.broken
    }

    fn claimed_size(&self) -> u64
        ensures { result ≡ size_in (claimed self.now.claim) }
    {
        match &self.claim {
            Some((_, key)) => key.size,
            None => 0,
        }
    }

    fn claimed_number(&self) -> u32 {
        match &self.claim {
            Some((number, _)) => *number,
            None => 0,
        }
    }

    fn break_disk(&mut self) -> u64
        ensures rose { Increased self.old.faults result }
        ensures same { self.new ≡ record self.old { faults = result; broken = Some result } }
    {
        self.faults = self.faults.saturating_add(1);
        self.broken = Some(self.faults);
        self.faults
    }
}

fn is_named(key: &FileKey) -> bool
    ensures { result ≡ true → IsKey (key_of key.now) }
{
    0 < key.name.len() && key.name.len() <= 200
}

// The bytes from a place on.
fn fill(filling: Filling, at: u64, out: &mut [u8]) {
    let mut place = at;
    for byte in out.iter_mut() {
        *byte = match filling {
            Filling::Same(byte) => byte,
            Filling::Places => byte_at(place),
        };
        place = place.wrapping_add(1);
    }
}
