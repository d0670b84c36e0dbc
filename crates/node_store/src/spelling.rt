//! The text of a record.
ghost use Rattle.std.specs.Prelude.{◌≡◌, ◌+◌, ◌≤◌, length, Ok};
ghost use Rattle.ledger_file.specs.Text.{IsPayload};
ghost use Rattle.ledger_rec.specs.Limits.{Fits};
ghost use Rattle.ledger_rec.specs.Payloads.{record_in};
ghost use Rattle.ledger_rec.specs.Record.{record_of};

use ftn_addr::Bytes;
use ledger_rec::{Record, fits_a_payload, write_record};

/// The payload of a record in place of what `text` had, which has room for it. It takes no memory.
pub(crate) fn spell(rec: &Record, text: &mut Bytes)
    requires fits { Fits (record_of rec.now) }
    requires room { 1400 ≤ text.old.spare + length text.old.list }
    ensures spells { record_in text.new.list ≡ Ok (record_of rec.now) }
    ensures size { IsPayload text.new.list }
    ensures room { 1400 ≤ text.new.spare + length text.new.list }
{
    // A record has 1 to 1,400 bytes.
    fits_a_payload();
    text.clear();
    match write_record(rec, text) {
        Ok(()) => (),
        Err(_) => unreachable!(),
    }
}
