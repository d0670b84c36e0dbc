//! A session that is over.

use session_run::Report;

/// A session that is over: at which place its line was given, its report, and its line, which is to be handed back there.
#[derive(Drop)]
pub struct Over<L> {
    pub place: u32,
    pub report: Report,
    pub line: L,
}
