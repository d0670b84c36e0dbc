//! What came of a call, and what is printed of it.
ghost use Rattle.std.specs.Prelude.{◌≡◌, IfOk};
ghost use Rattle.binkp_mailer.specs.Reports.{Prints, had_of, lines_told, told_of};
ghost use Rattle.command_base.specs.Statuses.{DiskFault, status_text};

use binkp_link::Sink;
use command_base::{
    SettingsFault, Status, print_lines, status_of, status_unindexed, status_unopened, status_unset,
};
use ftn_addr::{Bytes, NoMemory};
use node_store::StoreOpenFault;
use nodelist_files::IndexFileFault;
use session_lines::push_session;
use session_run::Report;
use std::alloc::Global;

/// What came of a call, before anything is printed.
#[derive(Debug, Drop)]
pub enum Outcome {
    /// The words are no command.
    Usage,
    /// There was no memory before a session began.
    NoMemory,
    /// Neither the settings nor the index have a host for the node that is called.
    NotFound,
    /// The index wasn't read, and that is the disk's count of faults.
    Unindexed(IndexFileFault, u64),
    /// The settings weren't read, and that is the disk's count of faults.
    Unset(SettingsFault, u64),
    /// The store wasn't opened, and that is its disk's count of faults.
    Unopened(StoreOpenFault, u64),
    /// Another program has the outbound of the node that is called, by the mark of that name.
    Marked(Bytes),
    /// Nobody came.
    NoCaller,
    /// No line could be had.
    NoLine,
    /// No session was held, and the disk failed with the mark of the node that is called. That is its count of faults.
    Unmarked(u64),
    /// A session was held.
    Held(Report),
    /// A session was held, and the disk failed behind it: the mark of the node that was called couldn't be taken away, or a received file
    /// couldn't be given. That is its count of faults.
    Ungiven(Report, u64),
}

impl Outcome {
    /// The same, and the disk failed then, which counts so many faults.
    pub(crate) fn failed(self, faults: u64) -> Outcome
        ensures had { had_of result ≡ DiskFault faults }
        ensures told { told_of result ≡ told_of self }
    {
        match self {
            Outcome::Held(report) => Outcome::Ungiven(report, faults),
            Outcome::Ungiven(report, _) => Outcome::Ungiven(report, faults),
            Outcome::Usage => Outcome::Unmarked(faults),
            Outcome::NoMemory => Outcome::Unmarked(faults),
            Outcome::NotFound => Outcome::Unmarked(faults),
            Outcome::Unindexed(_, _) => Outcome::Unmarked(faults),
            Outcome::Unset(_, _) => Outcome::Unmarked(faults),
            Outcome::Unopened(_, _) => Outcome::Unmarked(faults),
            Outcome::Marked(_) => Outcome::Unmarked(faults),
            Outcome::NoCaller => Outcome::Unmarked(faults),
            Outcome::NoLine => Outcome::Unmarked(faults),
            Outcome::Unmarked(_) => Outcome::Unmarked(faults),
        }
    }
}

/// The line of the session, where one was held.
fn session_lines(alloc: Global, outcome: &Outcome) -> Result<Bytes, NoMemory>
    ensures { IfOk result (λ lines. lines.list ≡ lines_told (told_of outcome.now)) }
{
    let mut lines = Bytes::new(alloc);
    match outcome {
        Outcome::Usage => {}
        Outcome::NoMemory => {}
        Outcome::NotFound => {}
        Outcome::Unindexed(_, _) => {}
        Outcome::Unset(_, _) => {}
        Outcome::Unopened(_, _) => {}
        Outcome::Marked(_) => {}
        Outcome::NoCaller => {}
        Outcome::NoLine => {}
        Outcome::Unmarked(_) => {}
        Outcome::Held(report) | Outcome::Ungiven(report, _) => {
            push_session(alloc, report, &mut lines)?
        }
    }
    Ok(lines)
}

/// The status that a call has.
fn had(outcome: Outcome) -> Status
    ensures { status_text result ≡ had_of outcome }
{
    match outcome {
        Outcome::Usage => Status::Usage,
        Outcome::NoMemory => Status::NoMemory,
        Outcome::NotFound => Status::NotFound,
        Outcome::Unindexed(fault, faults) => status_unindexed(fault, faults),
        Outcome::Unset(fault, faults) => status_unset(fault, faults),
        Outcome::Unopened(fault, faults) => status_unopened(fault, faults),
        Outcome::Marked(name) => Status::Marked(name),
        Outcome::NoCaller => Status::Dropped,
        Outcome::NoLine => Status::LineFault,
        Outcome::Unmarked(faults) => Status::DiskFault(faults),
        Outcome::Held(report) => status_of(report.end),
        Outcome::Ungiven(_, faults) => Status::DiskFault(faults),
    }
}

/// Prints the lines of a call, in one put, and answers its status: the one that it has; or NoMemory, where no memory is
/// left for the lines; or OutFault, where the put fails.
pub fn print<O: Sink>(alloc: Global, outcome: Outcome, out: &mut O) -> Status
    ensures { Prints (told_of outcome) (had_of outcome) (status_text result) (O.state out.old) (O.state out.new) }
{
    let started = session_lines(alloc, &outcome);
    print_lines(alloc, started, had(outcome), out)
}
