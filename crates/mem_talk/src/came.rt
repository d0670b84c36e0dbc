//! What came of a session.

use session_core::End;
use session_run::Report;

/// What came of a session at one of its ends: whether it finished, and how many files it settled, received and left.
#[derive(Clone, Copy)]
pub struct Came {
    pub finished: bool,
    pub sent: u32,
    pub received: u32,
    pub skipped: u32,
}

impl Came {
    /// What is told of a session.
    pub fn of(report: &Report) -> Came {
        Came {
            finished: report.end == End::Finished,
            sent: report.sent,
            received: report.received,
            skipped: report.skipped,
        }
    }
}
