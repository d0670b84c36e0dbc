//! Why a caller gets no turn.

/// Why [`Gate::try_enter`](crate::Gate::try_enter) hands nothing out.
#[derive(Debug, Drop, Clone, Copy, PartialEq, Eq)]
pub enum NoTurn {
    /// Another pass had the turn when this one asked for it.
    Busy,
    /// 2^64 - 1 turns were made. There are no more.
    Spent,
}
