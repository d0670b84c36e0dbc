//! What a take-in found no more of.

/// What a take-in found no more of.
#[derive(Clone, Copy, Debug, PartialEq, Eq)]
pub enum Wanting {
    /// The ledger has no place, or no number is left.
    Places,
    Memory,
}
