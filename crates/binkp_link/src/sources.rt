//! Where moments and random bytes come from.

/// A clock, which may go back. Nothing is said of its moments.
pub trait Clock {
    /// The seconds since the start of 1970.
    fn now(&mut self) -> u64;
}

/// A source of random bytes, of which nothing is said.
pub trait Dice {
    /// Sixteen of them.
    fn sixteen(&mut self) -> [u8; 16];
}
