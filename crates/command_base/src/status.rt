//! How the program ends.
ghost use Rattle.std.specs.Prelude.{◌≡◌, ◌++◌, OnOk};
ghost use Rattle.nodelist_files.specs.Files.{index_name};
ghost use Rattle.session_core.specs.Ends.{end_text};
ghost use Rattle.command_base.specs.Statuses.{cause_word, conf_word, fault_word, is_told, list_word, number_of_status, status_after, status_line, status_rest, status_text, status_uncompiled, status_unindexed, status_unopened, status_unset, status_word};

use crate::SettingsFault;
use binkp_args::{ArgFault, escape};
use disk_model::Name;
use ftn_addr::{Bytes, NoMemory};
use mail_conf::{ConfCause, ConfFault};
use node_store::StoreOpenFault;
use nodelist_comp::{ListCause, ListTextFault};
use nodelist_files::{CompileFault, IndexFileFault};
use session_core::{Cause, End};
use std::alloc::Global;

/// What came of a command. Its number is the program's exit status.
#[derive(Debug, PartialEq, Eq, Drop)]
pub enum Status {
    /// The session finished.
    Done,
    /// The words are no command.
    Usage,
    /// The settings are refused.
    ConfBad(ConfFault),
    /// The disk failed, and the store is broken with that count of faults, or wasn't opened.
    DiskFault(u64),
    /// The ledger can't be read from that place on, in bytes.
    LedgerBad(u64),
    /// The ledger has no room.
    LedgerFull,
    LineFault,
    /// The peer ended the line first.
    Dropped,
    /// Sixty reads or writes on end found nothing to move.
    Quiet,
    /// The peer said M_ERR with that text.
    PeerError(Bytes),
    /// The peer said M_BSY.
    PeerBusy,
    /// The caller's password isn't the right one.
    BadPassword,
    /// The peer's frame with that number was refused.
    Broke(Cause, u64),
    /// The bytes taken and written reached the limit.
    Endless,
    /// Another program has an outbound, by the mark of that name.
    Marked(Bytes),
    /// The node that is called has no host, or the one that is looked up isn't listed.
    NotFound,
    /// What was to be printed couldn't be put.
    OutFault,
    NoMemory,
    /// The own file of that name doesn't fit the ledger, or is no index of a nodelist.
    FileBad(Name),
    /// The nodelist is refused, with the line and the cause.
    ListBad(ListTextFault),
    /// There is no nodelist of at most 16,777,216 bytes, or no index.
    NoFile,
    /// As many sessions were open as the settings allow.
    TurnedAway,
}

impl Status {
    /// The exit status.
    pub fn number(&self) -> u8
        ensures { result ≡ number_of_status (status_text self.now) }
    {
        match self {
            Status::Done => 0,
            Status::Usage => 1,
            Status::ConfBad(_) => 2,
            Status::DiskFault(_) => 3,
            Status::LedgerBad(_) => 4,
            Status::LedgerFull => 5,
            Status::LineFault => 6,
            Status::Dropped => 7,
            Status::Quiet => 8,
            Status::PeerError(_) => 9,
            Status::PeerBusy => 10,
            Status::BadPassword => 11,
            Status::Broke(_, _) => 12,
            Status::Endless => 13,
            Status::Marked(_) => 14,
            Status::NotFound => 15,
            Status::OutFault => 16,
            Status::NoMemory => 17,
            Status::FileBad(_) => 18,
            Status::ListBad(_) => 19,
            Status::NoFile => 20,
            Status::TurnedAway => 21,
        }
    }

    /// Whether it has a line.
    fn is_told(&self) -> bool
        ensures { result ≡ is_told (status_text self.now) }
    {
        !matches!(self, Status::Done | Status::OutFault)
    }

    /// Its name.
    fn word(&self) -> &'static [u8]
        ensures { result.now ≡ status_word (status_text self.now) }
    {
        match self {
            Status::Done => b"Done",
            Status::Usage => b"Usage",
            Status::ConfBad(_) => b"ConfBad",
            Status::DiskFault(_) => b"DiskFault",
            Status::LedgerBad(_) => b"LedgerBad",
            Status::LedgerFull => b"LedgerFull",
            Status::LineFault => b"LineFault",
            Status::Dropped => b"Dropped",
            Status::Quiet => b"Quiet",
            Status::PeerError(_) => b"PeerError",
            Status::PeerBusy => b"PeerBusy",
            Status::BadPassword => b"BadPassword",
            Status::Broke(_, _) => b"Broke",
            Status::Endless => b"Endless",
            Status::Marked(_) => b"Marked",
            Status::NotFound => b"NotFound",
            Status::OutFault => b"OutFault",
            Status::NoMemory => b"NoMemory",
            Status::FileBad(_) => b"FileBad",
            Status::ListBad(_) => b"ListBad",
            Status::NoFile => b"NoFile",
            Status::TurnedAway => b"TurnedAway",
        }
    }
}

/// The status of a command whose session ended so.
pub fn status_of(end: End) -> Status
    ensures { status_text result ≡ status_after (end_text end) }
{
    match end {
        End::Finished => Status::Done,
        End::PeerError(text) => Status::PeerError(text),
        End::PeerBusy => Status::PeerBusy,
        End::BadPassword(_, _) => Status::BadPassword,
        End::Broke(cause, frame) => Status::Broke(cause, frame),
        End::Dropped => Status::Dropped,
        End::LineFault => Status::LineFault,
        End::DiskFault(faults) => Status::DiskFault(faults),
        End::LedgerFull => Status::LedgerFull,
        End::Quiet => Status::Quiet,
        End::Endless => Status::Endless,
        End::TurnedAway => Status::TurnedAway,
        End::NoMemory => Status::NoMemory,
    }
}

/// The status of a command whose store wasn't opened, where the disk's count of faults is that.
pub fn status_unopened(fault: StoreOpenFault, faults: u64) -> Status
    ensures { status_text result ≡ status_unopened fault faults }
{
    match fault {
        StoreOpenFault::Disk => Status::DiskFault(faults),
        StoreOpenFault::LedgerBad(place) => Status::LedgerBad(place),
        StoreOpenFault::FileBad(name) => Status::FileBad(name),
        StoreOpenFault::NoMemory => Status::NoMemory,
    }
}

/// The status of a command whose settings weren't read, where the disk's count of faults is that.
pub fn status_unset(fault: SettingsFault, faults: u64) -> Status
    ensures { status_text result ≡ status_unset fault faults }
{
    match fault {
        SettingsFault::Refused(fault) => Status::ConfBad(fault),
        SettingsFault::Disk => Status::DiskFault(faults),
        SettingsFault::NoMemory => Status::NoMemory,
    }
}

/// The status of a command whose nodelist wasn't compiled, where the disk's count of faults is that.
pub fn status_uncompiled(fault: CompileFault, faults: u64) -> Status
    ensures { status_text result ≡ status_uncompiled fault faults }
{
    match fault {
        CompileFault::Disk => Status::DiskFault(faults),
        CompileFault::NoFile => Status::NoFile,
        CompileFault::ListBad(fault) => Status::ListBad(fault),
        CompileFault::NoMemory => Status::NoMemory,
    }
}

/// The own file of the index.
fn index_file() -> Name
    ensures { result ≡ index_name }
{
    Name::new(b"nodelist.idx").unwrap()
}

/// The status of a command whose index wasn't read, where the disk's count of faults is that.
pub fn status_unindexed(fault: IndexFileFault, faults: u64) -> Status
    ensures { status_text result ≡ status_unindexed fault faults }
{
    match fault {
        IndexFileFault::Disk => Status::DiskFault(faults),
        IndexFileFault::Bad => Status::FileBad(index_file()),
        IndexFileFault::NoMemory => Status::NoMemory,
    }
}

/// The name of what was wrong with settings.
fn conf_word(cause: ConfCause) -> &'static [u8]
    ensures { result.now ≡ conf_word cause }
{
    match cause {
        ConfCause::UnknownWord => b"UnknownWord",
        ConfCause::MissingWord => b"MissingWord",
        ConfCause::BadAddress => b"BadAddress",
        ConfCause::BadNumber => b"BadNumber",
        ConfCause::Twice => b"Twice",
        ConfCause::NoAddress => b"NoAddress",
        ConfCause::NoText => b"NoText",
        ConfCause::TooLong => b"TooLong",
        ConfCause::NoMemory => b"NoMemory",
    }
}

/// The name of what was wrong with a nodelist.
fn list_word(cause: ListCause) -> &'static [u8]
    ensures { result.now ≡ list_word cause }
{
    match cause {
        ListCause::NoZone => b"NoZone",
        ListCause::BadNumber => b"BadNumber",
        ListCause::UnknownKeyword => b"UnknownKeyword",
        ListCause::TooMany => b"TooMany",
        ListCause::NoMemory => b"NoMemory",
    }
}

/// The name of what was wrong with an argument.
fn fault_word(fault: ArgFault) -> &'static [u8]
    ensures { result.now ≡ fault_word fault }
{
    match fault {
        ArgFault::MissingWord(_) => b"MissingWord",
        ArgFault::BadNumber(_) => b"BadNumber",
        ArgFault::LongName => b"LongName",
        ArgFault::TooLarge => b"TooLarge",
        ArgFault::PastEnd => b"PastEnd",
        ArgFault::NoAddress => b"NoAddress",
        ArgFault::NoMemory => b"NoMemory",
    }
}

/// The name of what was wrong with a frame.
fn cause_word(cause: Cause) -> &'static [u8]
    ensures { result.now ≡ cause_word cause }
{
    match cause {
        Cause::Arg(fault) => fault_word(fault),
        Cause::OutOfTurn => b"OutOfTurn",
        Cause::NotCalled => b"NotCalled",
        Cause::Late => b"Late",
        Cause::TooMuch => b"TooMuch",
    }
}

/// Adds what a status tells behind its name.
fn push_rest(alloc: Global, status: &Status, line: &mut Bytes) -> Result<(), NoMemory>
    ensures { OnOk result (line.new.list ≡ line.old.list ++ status_rest (status_text status.now)) }
{
    match status {
        Status::ConfBad(fault) => {
            line.push_slice(b" ")?;
            line.push_number(alloc, u64::from(fault.line))?;
            line.push_slice(b" ")?;
            line.push_slice(conf_word(fault.cause))
        }
        Status::ListBad(fault) => {
            line.push_slice(b" ")?;
            line.push_number(alloc, u64::from(fault.line))?;
            line.push_slice(b" ")?;
            line.push_slice(list_word(fault.cause))
        }
        Status::DiskFault(count) => {
            line.push_slice(b" ")?;
            line.push_number(alloc, *count)
        }
        Status::LedgerBad(place) => {
            line.push_slice(b" ")?;
            line.push_number(alloc, *place)
        }
        Status::FileBad(name) => {
            line.push_slice(b" ")?;
            escape(alloc, name.as_slice(), line)
        }
        Status::Marked(name) => {
            line.push_slice(b" ")?;
            escape(alloc, name.as_slice(), line)
        }
        Status::PeerError(text) => {
            line.push_slice(b" ")?;
            escape(alloc, text.as_slice(), line)
        }
        Status::Broke(cause, frame) => {
            line.push_slice(b" ")?;
            line.push_slice(cause_word(*cause))?;
            line.push_slice(b" ")?;
            line.push_number(alloc, *frame)
        }
        Status::Done
        | Status::Usage
        | Status::LedgerFull
        | Status::LineFault
        | Status::Dropped
        | Status::Quiet
        | Status::PeerBusy
        | Status::BadPassword
        | Status::Endless
        | Status::NotFound
        | Status::OutFault
        | Status::NoMemory
        | Status::NoFile
        | Status::TurnedAway => Ok(()),
    }
}

/// Adds the line `status N WORD ..`, which ends by LF. Done and OutFault have none.
pub fn push_status(alloc: Global, status: &Status, out: &mut Bytes) -> Result<(), NoMemory>
    ensures { OnOk result (out.new.list ≡ out.old.list ++ status_line (status_text status.now)) }
{
    if !status.is_told() {
        return Ok(());
    }
    out.push_slice(b"status ")?;
    out.push_number(alloc, u64::from(status.number()))?;
    out.push_slice(b" ")?;
    out.push_slice(status.word())?;
    push_rest(alloc, status, out)?;
    out.push_slice(b"\n")
}
