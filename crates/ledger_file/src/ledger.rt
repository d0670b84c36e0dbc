//! A ledger in memory.
ghost use Rattle.std.specs.Prelude.{◌≡◌, ◌+◌, ◌-◌, ◌<◌, ◌≤◌, ◌↔◌, max, length, take, slice_get, Some, IsTrue, OnOk, OnErr, IsErrOf};
ghost use Rattle.ledger_file.specs.Text.{gate_of};

use crate::fault::AppendFault;
use crate::records::{MOST_BYTES, MOST_RECORDS, Records};
use std::marker::Model;

/// The payloads of a ledger's file, with places reserved for more. Contracts see both.
#[derive(Drop)]
pub struct Ledger {
    pub(crate) records: Records,
    pub(crate) reserved: u32,
}

impl Model for Ledger {
    ghost use Rattle.std.specs.Prelude.{◌+◌, ◌*◌, ◌≤◌, length};
    ghost use Rattle.ledger_file.specs.Ledger.{Kept};

    ghost Value = { Kept };

    ghost view = { λ a. record { payloads = a.records.payloads; reserved = a.reserved } };

    // There is room for the largest records at the places reserved.
    ghost invariant = { λ a. (1403 * a.reserved ≤ a.records.spare) × (a.reserved ≤ a.records.slots) × (length a.records.payloads + a.reserved ≤ 262144) };
}

impl Ledger {
    /// The number of payloads.
    pub fn count(&self) -> u32
        ensures { result ≡ length self.now.payloads }
    {
        self.records.count() as u32
    }

    /// A ledger has at most so many payloads, the places reserved among them. It does nothing.
    pub fn holds_few(&self)
        ensures { length self.now.payloads + self.now.reserved ≤ 262144 }
    {
        let _reserved = self.reserved;
    }

    /// The payload of record `i`, counted from 0.
    pub fn payload(&self, i: u32) -> &[u8]
        requires { i < length self.now.payloads }
        ensures { slice_get self.now.payloads i ≡ Some result.now }
    {
        self.records.payload(i as usize)
    }

    /// Where the gate of record `i` stands, counted from 0, in bytes from the start of the file.
    pub fn place(&self, i: u32) -> u64
        requires { i < length self.now.payloads }
        ensures { result ≡ gate_of (take i self.now.payloads) }
    {
        self.records.place(i as usize)
    }

    /// The places reserved.
    pub fn reserved(&self) -> u32
        ensures { result ≡ self.now.reserved }
    {
        self.reserved
    }

    /// Keeps places and memory for `n` more payloads, so that appending them answers Ok or Disk. Where it
    /// is refused nothing changed.
    pub fn reserve(&mut self, n: u32) -> Result<(), AppendFault>
        ensures payloads { OnOk result (self.new.payloads ≡ self.old.payloads) }
        ensures reserved { OnOk result (self.new.reserved ≡ self.old.reserved + n) }
        ensures same { OnErr result (self.new ≡ self.old) }
        ensures full { IsErrOf result AppendFault.Full ↔ (262144 < length self.old.payloads + self.old.reserved + n) }
        ensures no_disk { IsErrOf result AppendFault.Disk → ⊥ }
    {
        let places = self.reserved as usize + n as usize;
        if self.records.count() + places > MOST_RECORDS {
            return Err(AppendFault::Full);
        }
        self.records.make_room(MOST_BYTES * places, places)?;
        self.reserved += n;
        Ok(())
    }

    /// Gives `n` reserved places back. It takes no memory.
    pub fn release(&mut self, n: u32)
        requires { n ≤ self.old.reserved }
        ensures payloads { self.new.payloads ≡ self.old.payloads }
        ensures reserved { self.new.reserved + n ≡ self.old.reserved }
    {
        self.reserved -= n;
    }

    // Whether `n` more payloads are too many.
    pub(crate) fn is_full_for(&self, n: usize) -> bool
        ensures { IsTrue result ↔ (262144 < length self.now.payloads + max self.now.reserved n) }
    {
        n > MOST_RECORDS - self.records.count()
    }
}
