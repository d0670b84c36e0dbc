//! Reading the bytes of a ledger.
ghost use Rattle.std.specs.Prelude.{◌≡◌, ◌≢◌, ◌⊎◌, ◌↔◌, ◌≤◌, ℕ, List, ◌++◌, length, drop, slice_index, IsTrue, Err, IfOk, IfErr, IfSome, IfNone};
ghost use Rattle.ledger_file.specs.Reading.{Reads};
ghost use Rattle.ledger_file.specs.Text.{IsPayload, header, record_of, Spells};
ghost use Rattle.ledger_file.specs.declared.fault.OpenFault.TheVariants.{NoMemory};

use crate::fault::OpenFault;
use crate::header::{LEN, read_version};
use crate::records::{MOST_RECORDS, OPEN, Records, VERSION};
use std::alloc::Global;

/// The most bytes of a payload.
const MOST_LEN: usize = 1400;

/// The records that these bytes spell, or why they spell none.
pub(crate) fn read_ledger(alloc: Global, bytes: &[u8]) -> Result<Records, OpenFault>
    ensures list { IfOk result (λ held. Spells held.payloads bytes.now) }
    ensures fault { IfErr result (λ fault. (fault ≡ NoMemory) ⊎ Reads (Err fault) bytes.now) }
{
    match read_version(bytes) {
        None => Err(OpenFault::NotLedger),
        Some(VERSION) => read_records(alloc, bytes),
        Some(version) => Err(OpenFault::Version(version)),
    }
}

// The same of bytes that begin with the header.
fn read_records(alloc: Global, bytes: &[u8]) -> Result<Records, OpenFault>
    requires { bytes.now ≡ header ++ drop 16 bytes.now }
    ensures list { IfOk result (λ held. Spells held.payloads bytes.now) }
    ensures fault { IfErr result (λ fault. (fault ≡ NoMemory) ⊎ Reads (Err fault) bytes.now) }
{
    let mut held = Records::new(alloc)?;
    let mut rest = &bytes[LEN..];
    'records: while is_open(rest) {
        if held.count() == MOST_RECORDS {
            return Err(OpenFault::Over((bytes.len() - rest.len()) as u64));
        }
        let Some((payload, after)) = first_record(rest) else {
            return Err(OpenFault::Cut((bytes.len() - rest.len()) as u64));
        };
        held.make_room(payload.len() + 3, 1)?;
        held.push(payload);
        rest = after;
    }
    if rest.is_empty() {
        return Err(OpenFault::Cut(bytes.len() as u64));
    }
    Ok(held)
}

// Whether an open gate stands at the front.
fn is_open(bytes: &[u8]) -> bool
    ensures { IsTrue result ↔ ((1 ≤ length bytes.now) × (slice_index bytes.now 0 ≡ 1)) }
{
    !bytes.is_empty() && bytes[0] == OPEN
}

// The payload of the record at the front, and what stands behind it. None where no record stands there.
fn first_record(bytes: &[u8]) -> Option<(&[u8], &[u8])>
    ensures size { IfSome result (λ x. IsPayload x.0.now) }
    ensures front { IfSome result (λ x. bytes.now ≡ record_of x.0.now ++ x.1.now) }
    ensures none { IfNone result ((payload more : List ℕ) → IsPayload payload → bytes.now ≢ record_of payload ++ more) }
{
    match bytes {
        [OPEN, high, low, rest @ ..] => {
            let len = *high as usize * 256 + *low as usize;
            if len == 0 || len > MOST_LEN || len > rest.len() {
                return None;
            }
            Some((&rest[..len], &rest[len..]))
        }
        _ => None,
    }
}
