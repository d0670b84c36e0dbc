//! What is told of a session.
ghost use Rattle.std.specs.Prelude.{◌≡◌, option_map};
ghost use Rattle.session_core.specs.Replies.{login_text, tally_text};
ghost use Rattle.session_run.specs.Reports.{Reports_told, report_text};

use ftn_addr::Addr;
use session_core::{End, Login, Tally};

/// What is told of a session. The count of bytes written stands at its type's end.
#[derive(Debug, Drop)]
pub struct Report {
    /// The session's number at its desk, or 0 where no login was made.
    pub session: u32,
    /// The peer's first address, where a login was made.
    pub peer: Option<Addr>,
    /// Files that the peer acknowledged, so that they were settled, up to the end of 32 bits.
    pub sent: u32,
    /// Files of which a receipt was made, up to the end of 32 bits.
    pub received: u32,
    /// Files that the peer left to a later session, up to the end of 32 bits.
    pub skipped: u32,
    /// Bytes taken from the line.
    pub taken: u64,
    /// Bytes written to the line.
    pub wrote: u64,
    pub end: End,
}

impl Report {
    /// The report of a session with that login, which counted these files, and took and wrote so many bytes.
    pub(crate) fn new(
        login: Option<Login>,
        tally: Tally,
        taken: u64,
        wrote: u64,
        end: End,
    ) -> Report
        ensures told { Reports_told (report_text result) (record { login = option_map login_text login; tally = tally_text tally }) }
        ensures taken { result.taken ≡ taken }
        ensures wrote { result.wrote ≡ wrote }
        ensures end { result.end ≡ end }
    {
        let (session, peer) = match login {
            Some(login) => (login.number, Some(login.peer)),
            None => (0, None),
        };
        Report {
            session,
            peer,
            sent: tally.sent,
            received: tally.received,
            skipped: tally.skipped,
            taken,
            wrote,
            end,
        }
    }
}
