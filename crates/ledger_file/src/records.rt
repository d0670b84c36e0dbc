//! The records of a ledger in memory, as the file has them.
ghost use Rattle.std.specs.Prelude.{◌≡◌, ℕ, ◌+◌, ◌-◌, ◌*◌, ◌<◌, ◌≤◌, [], ◌∷◌, ◌++◌, length, take, drop, slice_get, Some, IfOk, OnOk, IsOk};
ghost use Rattle.ledger_file.specs.Text.{IsPayload, ArePayloads, lists, header, records, gate_of};

use crate::header::header_bytes;
use ftn_addr::{Bytes, NoMemory};
use std::alloc::Global;
use std::marker::Model;

/// The version that is written.
pub(crate) const VERSION: u32 = 1;
/// The gate of a record.
pub(crate) const OPEN: u8 = 1;

const SHUT: u8 = 0;

/// The most records of a ledger.
pub(crate) const MOST_RECORDS: usize = 262144;

/// The most bytes of a record: gate, two bytes length and a payload.
pub(crate) const MOST_BYTES: usize = 1403;

/// The bytes of a ledger's file up to its closed gate, in one list, so that room for more can be made
/// before it is wanted. Contracts see the payloads and that room.
#[derive(Drop)]
pub(crate) struct Records {
    text: Bytes,
    // Where the gate of each record stands.
    gates: Vec<u64>,
}

impl Model for Records {
    ghost use Rattle.std.specs.Prelude.{◌-◌, map, vec_len, vec_capacity};
    ghost use Rattle.ledger_file.specs.Records.{Held, IsText, payload_at};

    ghost Value = { Held };

    ghost view = { λ a. record { payloads = map (payload_at a.text.list) a.gates.items; spare = a.text.spare; slots = vec_capacity a.gates - vec_len a.gates } };

    ghost invariant = { λ a. IsText (map (payload_at a.text.list) a.gates.items) a.text.list a.gates.items };
}

impl Records {
    /// No records.
    pub(crate) fn new(alloc: Global) -> Result<Records, NoMemory>
        ensures { IfOk result (λ r. r.payloads ≡ []) }
    {
        let mut text = Bytes::from_slice(alloc, &header_bytes(VERSION))?;
        text.push_slice(&[SHUT])?;
        Ok(Records {
            text,
            gates: Vec::new(alloc),
        })
    }

    /// The number of records.
    pub(crate) fn count(&self) -> usize
        ensures { result ≡ length self.now.payloads }
    {
        self.gates.len()
    }

    /// Where the gate of record `i` stands, from 0 on, in bytes from the start of the file.
    pub(crate) fn place(&self, i: usize) -> u64
        requires { i < length self.now.payloads }
        ensures { result ≡ gate_of (take i self.now.payloads) }
    {
        self.gates[i]
    }

    /// The payload of record `i`, from 0 on.
    pub(crate) fn payload(&self, i: usize) -> &[u8]
        requires { i < length self.now.payloads }
        ensures { slice_get self.now.payloads i ≡ Some result.now }
    {
        let gate = self.gates[i] as usize;
        let text = self.text.as_slice();
        let len = text[gate + 1] as usize * 256 + text[gate + 2] as usize;
        &text[gate + 3..gate + 3 + len]
    }

    /// The bytes of the file: header, records and closed gate.
    pub(crate) fn file_bytes(&self) -> &[u8]
        ensures bytes { result.now ≡ (header ++ records self.now.payloads) ++ 0 ∷ [] }
        ensures sizes { ArePayloads self.now.payloads }
    {
        self.text.as_slice()
    }

    /// Makes room for so many bytes of records, and so many records.
    pub(crate) fn make_room(&mut self, bytes: usize, n: usize) -> Result<(), NoMemory>
        ensures same { self.new.payloads ≡ self.old.payloads }
        ensures bytes { OnOk result (bytes ≤ self.new.spare) }
        ensures records { OnOk result (n ≤ self.new.slots) }
        ensures within { bytes ≤ self.old.spare → n ≤ self.old.slots → IsOk result }
        ensures spare { self.old.spare ≤ self.new.spare }
        ensures slots { self.old.slots ≤ self.new.slots }
    {
        self.text.reserve(bytes)?;
        self.gates.reserve(n)?;
        Ok(())
    }

    /// Adds a record for which there is room.
    pub(crate) fn push(&mut self, payload: &[u8])
        requires size { IsPayload payload.now }
        requires room { length payload.now + 3 ≤ self.old.spare }
        requires slot { 1 ≤ self.old.slots }
        ensures added { self.new.payloads ≡ self.old.payloads ++ payload.now ∷ [] }
        ensures spare { self.old.spare ≤ self.new.spare + length payload.now + 3 }
        ensures slots { self.old.slots ≤ self.new.slots + 1 }
    {
        let len = payload.len();
        let gate = self.text.len() - 1;
        self.text.truncate(gate);
        put(
            &mut self.text,
            &[OPEN, (len / 256) as u8, (len % 256) as u8],
        );
        put(&mut self.text, payload);
        put(&mut self.text, &[SHUT]);
        self.gates.push_reserved(gate as u64);
    }

    /// Adds records for which there is room.
    pub(crate) fn push_all(&mut self, payloads: &[Bytes])
        requires sizes { ArePayloads (lists payloads.now) }
        requires room { length (records (lists payloads.now)) ≤ self.old.spare }
        requires slot { length payloads.now ≤ self.old.slots }
        ensures added { self.new.payloads ≡ self.old.payloads ++ lists payloads.now }
        ensures spare { self.old.spare ≤ self.new.spare + length (records (lists payloads.now)) }
        ensures slots { self.old.slots ≤ self.new.slots + length payloads.now }
    {
        for payload in payloads {
            self.push(payload.as_slice());
        }
    }

    /// Drops all but the first `count` records, and keeps their room.
    pub(crate) fn truncate(&mut self, count: usize)
        requires { count < length self.old.payloads }
        ensures front { self.new.payloads ≡ take count self.old.payloads }
        ensures spare { self.old.spare + length (records (drop count self.old.payloads)) ≤ self.new.spare }
        ensures slots { self.old.slots + (length self.old.payloads - count) ≤ self.new.slots }
    {
        let gate = self.gates[count] as usize;
        self.text.truncate(gate);
        put(&mut self.text, &[SHUT]);
        self.gates.truncate(count);
    }
}

/// How many bytes the records of these payloads have.
pub(crate) fn bytes_of(payloads: &[Bytes]) -> usize
    requires sizes { ArePayloads (lists payloads.now) }
    requires few { length payloads.now ≤ 262144 }
    ensures { result ≡ length (records (lists payloads.now)) }
{
    let mut bytes = 0;
    for payload in payloads {
        bytes += payload.len() + 3;
    }
    bytes
}

// Adds bytes for which there is room.
fn put(text: &mut Bytes, bytes: &[u8])
    requires { length bytes.now ≤ text.old.spare }
    ensures list { text.new.list ≡ text.old.list ++ bytes.now }
    ensures spare { text.old.spare ≤ text.new.spare + length bytes.now }
{
    text.push_slice(bytes).unwrap();
}
