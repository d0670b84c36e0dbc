//! The records of a store in memory.
ghost use Rattle.std.specs.Prelude.{◌≡◌, ◌+◌, ◌≤◌, ◌<◌, [], ◌++◌, IfOk, vec_len, vec_capacity};
ghost use Rattle.ftn_addr.specs.Address.{address};
ghost use Rattle.ftn_addr.specs.Key.{key_of};
ghost use Rattle.node_model.specs.Node.{Refused_record};
ghost use Rattle.node_model.specs.Rows.{by};
ghost use Rattle.mem_store.specs.Views.{record_of};

use crate::lists::put;
use ftn_addr::{Action, Addr, Bytes, FileKey, NoMemory};
use node_model::Flavour;
use std::alloc::Global;
use std::marker::Model;

/// What a record says.
#[derive(Debug, Drop)]
pub enum LogRecord {
    /// A file was queued under a number.
    Queued {
        number: u32,
        dest: Addr,
        key: FileKey,
        flavour: Flavour,
        source: Bytes,
        action: Action,
    },
    /// A queued file was settled.
    Done {
        number: u32,
        session: u32,
    },
    /// A file was received.
    Received {
        receipt: u32,
        from: Addr,
        key: FileKey,
        session: u32,
        secure: bool,
    },
    /// A file was refused, for its name (1) or its size (2).
    Refused {
        from: Addr,
        key: FileKey,
        session: u32,
        reason: u8,
    },
    /// So many bytes of a part are marked.
    Marked {
        part: u32,
        from: Addr,
        key: FileKey,
        size: u64,
    },
    /// A take was queued.
    Taken {
        take: u32,
    },
    /// What was to be done with a queued file's source is done.
    Acted {
        number: u32,
    },
    /// A received request was answered.
    Answered {
        receipt: u32,
    },
}

/// A record, and the seat that made it.
#[derive(Debug, Drop)]
pub struct LogEntry {
    seat: u32,
    record: LogRecord,
}

impl Model for LogEntry {
    ghost use Rattle.node_model.specs.Node.{Logged};
    ghost use Rattle.mem_store.specs.Views.{record_of};

    ghost Value = { Logged };

    ghost view = { λ e. record { seat = e.seat; entry = record_of e.record } };
}

impl LogEntry {
    ghost use Rattle.std.specs.Prelude.{◌≡◌};
    ghost use Rattle.mem_store.specs.Views.{record_of};

    pub fn new(seat: u32, entry: LogRecord) -> LogEntry
        ensures { result ≡ record { seat = seat; entry = record_of entry } }
    {
        LogEntry {
            seat,
            record: entry,
        }
    }

    /// The seat that made it.
    pub fn seat(&self) -> u32
        ensures { result ≡ self.now.seat }
    {
        self.seat
    }

    pub fn record(&self) -> &LogRecord
        ensures { record_of result.now ≡ self.now.entry }
    {
        &self.record
    }
}

/// The record of a refusal.
pub fn refusal_record(
    alloc: Global,
    from: &Addr,
    key: &FileKey,
    session: u32,
    reason: u8,
) -> Result<LogRecord, NoMemory>
    ensures { IfOk result (λ entry. record_of entry ≡ Refused_record (address from.now) (key_of key.now) session reason) }
{
    Ok(LogRecord::Refused {
        from: from.copy(alloc)?,
        key: key.copy(alloc)?,
        session,
        reason,
    })
}

/// Appends a record of a seat. It takes no memory.
pub fn append(seat: u32, entry: LogRecord, log: &mut Vec<LogEntry>)
    requires { vec_len log.old < vec_capacity log.old }
    ensures items { log.new.items ≡ log.old.items ++ by seat (record_of entry) }
    ensures len { vec_len log.new ≡ vec_len log.old + 1 }
    ensures capacity { vec_capacity log.old ≤ vec_capacity log.new }
{
    put(LogEntry::new(seat, entry), log);
}
