//! What the calls of a disk answer.

/// Why a folder could not be listed.
#[derive(Clone, Copy, Debug, PartialEq, Eq)]
pub enum ListFault {
    /// The folder could not be read. The count of faults rose.
    Failed,
    /// No memory for the list. Nothing changed.
    NoMemory,
}

/// Whether `create` made the file.
#[derive(Clone, Copy, Debug, PartialEq, Eq)]
pub enum Made {
    /// The name was free, and an empty file has it now.
    New,
    /// A file stands under that name. It is as before.
    Exists,
}

/// The size of an outside file in bytes, and its time of change in seconds since 1970.
#[derive(Clone, Copy, Debug, PartialEq, Eq)]
pub struct OutStat {
    pub size: u64,
    pub time: u64,
}

/// Whether `take` found the outside file.
#[derive(Clone, Copy, Debug, PartialEq, Eq)]
pub enum Moved {
    /// It is an own file now.
    Done,
    /// No file stands under the path.
    Absent,
}

/// What `copy` made.
#[derive(Clone, Copy, Debug, PartialEq, Eq)]
pub enum Copied {
    /// The number of bytes copied, and the time that was read at the start.
    Copied(OutStat),
    /// No file stands under the path.
    Absent,
    /// The file has more bytes than may be copied. No own file is left.
    Over,
}

/// Whether an outside file was the one that was meant.
#[derive(Clone, Copy, Debug, PartialEq, Eq)]
pub enum Hit {
    /// It was, and what was asked is done.
    Done,
    /// It wasn't, and nothing changed.
    Other,
}

/// Whether `mark` made its file.
#[derive(Clone, Copy, Debug, PartialEq, Eq)]
pub enum Marking {
    /// The file is there, with its whole text.
    Made,
    /// A file stood there already.
    Exists,
}

/// Whether `give` found the name free.
#[derive(Clone, Copy, Debug, PartialEq, Eq)]
pub enum Giving {
    /// The file stands in the folder.
    Given,
    /// The name is in use there, and nothing changed.
    Taken,
}
