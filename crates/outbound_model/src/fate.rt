//! What became of what was taken in.

/// What became of a line of a flow file, or of a packet or a request, which are one file each.
#[derive(Clone, Copy, Debug, PartialEq, Eq)]
pub enum Fate {
    /// Its file is queued under a new number.
    Queued(u32),
    /// Its address has a file of that key already, under this number.
    Again(u32),
    /// No such file stands, or its path can't be one of a queued file.
    Missing,
    /// The file has more than 2,147,483,647 bytes.
    Over,
    /// The line names no file, or the mark of an outbound.
    Passed,
}
