//! The records of a ledger.
ghost use Rattle.std.specs.Prelude.{◌≡◌, IfOk};

use ftn_addr::{Addr, Bytes, FileKey, NoMemory};
use std::alloc::Global;

/// A file is queued.
#[derive(Debug, Drop)]
pub struct NewFileRec {
    /// Its queue number, above all earlier ones.
    pub number: u32,
    /// For whom it is.
    pub dest: Addr,
    pub key: FileKey,
    /// The outside file that it came from, at most 1,024 bytes; none where it came from no file.
    pub source: Bytes,
    /// What is done with that file once it is queued: 0 leave, 1 delete, 2 cut.
    pub action: u8,
    /// How urgent it is: 0 immediate, 1 crash, 2 direct, 3 normal, 4 hold.
    pub flavour: u8,
}

/// A file is received.
#[derive(Debug, Drop)]
pub struct ReceivedRec {
    /// The number of its receipt.
    pub receipt: u32,
    /// The sender's first address.
    pub from: Addr,
    pub key: FileKey,
    /// The number of the session that it came in.
    pub session: u32,
    /// Whether that session was secure.
    pub secure: bool,
}

/// A file is refused.
#[derive(Debug, Drop)]
pub struct RefusedRec {
    /// The sender's first address.
    pub from: Addr,
    pub key: FileKey,
    /// The number of the session that offered it.
    pub session: u32,
    /// Why: 1 its name, 2 its size.
    pub reason: u8,
}

/// So much of a file has come.
#[derive(Debug, Drop)]
pub struct MarkRec {
    /// The number of the part.
    pub part: u32,
    /// The sender's first address.
    pub from: Addr,
    pub key: FileKey,
    /// How many bytes of its front are kept, from 1 to its size.
    pub length: u64,
}

/// One durable change.
#[derive(Debug, Drop)]
pub enum Record {
    Queue(NewFileRec),
    /// The peer has the queued file with the first number, since the session with the second.
    Done(u32, u32),
    Received(ReceivedRec),
    Refused(RefusedRec),
    Mark(MarkRec),
    /// All files of the take with this number are queued.
    Taken(u32),
    /// The action of the queued file with this number is done.
    Acted(u32),
    /// The received request with this receipt is answered.
    Answered(u32),
}

impl NewFileRec {
    ghost use Rattle.ledger_rec.specs.Record.{new_file};

    pub fn copy(&self, alloc: Global) -> Result<NewFileRec, NoMemory>
        ensures { IfOk result (λ copy. new_file copy ≡ new_file self.now) }
    {
        Ok(NewFileRec {
            number: self.number,
            dest: self.dest.copy(alloc)?,
            key: self.key.copy(alloc)?,
            source: self.source.copy(alloc)?,
            action: self.action,
            flavour: self.flavour,
        })
    }
}

impl ReceivedRec {
    ghost use Rattle.ledger_rec.specs.Record.{received};

    pub fn copy(&self, alloc: Global) -> Result<ReceivedRec, NoMemory>
        ensures { IfOk result (λ copy. received copy ≡ received self.now) }
    {
        Ok(ReceivedRec {
            receipt: self.receipt,
            from: self.from.copy(alloc)?,
            key: self.key.copy(alloc)?,
            session: self.session,
            secure: self.secure,
        })
    }
}

impl RefusedRec {
    ghost use Rattle.ledger_rec.specs.Record.{refused};

    pub fn copy(&self, alloc: Global) -> Result<RefusedRec, NoMemory>
        ensures { IfOk result (λ copy. refused copy ≡ refused self.now) }
    {
        Ok(RefusedRec {
            from: self.from.copy(alloc)?,
            key: self.key.copy(alloc)?,
            session: self.session,
            reason: self.reason,
        })
    }
}

impl MarkRec {
    ghost use Rattle.ledger_rec.specs.Record.{mark};

    pub fn copy(&self, alloc: Global) -> Result<MarkRec, NoMemory>
        ensures { IfOk result (λ copy. mark copy ≡ mark self.now) }
    {
        Ok(MarkRec {
            part: self.part,
            from: self.from.copy(alloc)?,
            key: self.key.copy(alloc)?,
            length: self.length,
        })
    }
}

impl Record {
    ghost use Rattle.ledger_rec.specs.Record.{record_of};

    pub fn copy(&self, alloc: Global) -> Result<Record, NoMemory>
        ensures { IfOk result (λ copy. record_of copy ≡ record_of self.now) }
    {
        match self {
            Record::Queue(rec) => Ok(Record::Queue(rec.copy(alloc)?)),
            Record::Done(number, session) => Ok(Record::Done(*number, *session)),
            Record::Received(rec) => Ok(Record::Received(rec.copy(alloc)?)),
            Record::Refused(rec) => Ok(Record::Refused(rec.copy(alloc)?)),
            Record::Mark(rec) => Ok(Record::Mark(rec.copy(alloc)?)),
            Record::Taken(take) => Ok(Record::Taken(*take)),
            Record::Acted(number) => Ok(Record::Acted(*number)),
            Record::Answered(receipt) => Ok(Record::Answered(*receipt)),
        }
    }
}
