//! What a session has counted.
ghost use Rattle.std.specs.Prelude.{◌≡◌};
ghost use Rattle.session_core.specs.Replies.{tally_at, tally_text};

use crate::session::Session;
use crate::stage::Stage;

/// How many files a session has sent, received and skipped, each counted up to the end of 32 bits.
#[derive(Clone, Copy, Debug, PartialEq, Eq)]
pub struct Tally {
    /// Files that the peer acknowledged, so that they were settled.
    pub sent: u32,
    /// Files of which a receipt was made.
    pub received: u32,
    /// Files that the peer left to a later session.
    pub skipped: u32,
}

impl Session {
    /// What it has counted so far; nothing before its login.
    pub fn tally(&self) -> Tally
        ensures { tally_text result ≡ tally_at self.now.stage }
    {
        match &self.stage {
            Stage::LogsIn => Tally {
                sent: 0,
                received: 0,
                skipped: 0,
            },
            Stage::Talks(talking) => Tally {
                sent: talking.sender.sent,
                received: talking.receiver.received,
                skipped: talking.sender.skipped,
            },
        }
    }
}
