//! What came of a call of the program.
use command_base::Status;
use ftn_addr::Bytes;
use mem_disk::MemDisk;

/// What came of a call: its status, what the peer heard or the command printed, and the disk behind it.
#[derive(Drop)]
pub struct Ran {
    status: Status,
    told: Bytes,
    printed: Bytes,
    disk: MemDisk,
}

impl Ran {
    /// A call that ended so.
    pub(crate) fn new(status: Status, told: Bytes, printed: Bytes, disk: MemDisk) -> Ran {
        Ran {
            status,
            told,
            printed,
            disk,
        }
    }

    /// What came of it.
    pub fn status(&self) -> &Status {
        &self.status
    }

    /// Whether the call was done.
    pub fn is_done(&self) -> bool {
        self.status == Status::Done
    }

    /// What the peer heard, or the command printed.
    pub fn told(&self) -> &[u8] {
        self.told.as_slice()
    }

    /// What the call of a session printed; of a command, nothing more than it told.
    pub fn printed(&self) -> &[u8] {
        self.printed.as_slice()
    }

    /// The disk behind the call. Its calls begin with those that read the settings.
    pub fn disk(&self) -> &MemDisk {
        &self.disk
    }
}

/// The disk behind a call.
pub fn disk_of(ran: Box<Ran>) -> MemDisk {
    Box::into_inner(ran).disk
}
