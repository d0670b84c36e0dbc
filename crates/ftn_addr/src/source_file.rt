//! What is done with an outside file once it is queued.

/// What a flow line asks to be done with its file once the file is queued (FTS-5005).
#[derive(Clone, Copy, Debug, PartialEq, Eq)]
pub enum Action {
    /// The file stays as it is.
    Leave,
    /// The file is deleted.
    Delete,
    /// The file is truncated to length 0.
    Cut,
}
