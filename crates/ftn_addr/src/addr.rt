ghost use Rattle.std.specs.Prelude.{◌≡◌, IfOk};

use crate::{Bytes, NoMemory};
use std::alloc::Global;

/// A FidoNet address, `zone:net/node.point@domain`. Its numbers are at most 32,767.
#[derive(Debug, PartialEq, Eq, PartialOrd, Ord, Drop)]
pub struct Addr {
    pub zone: u16,
    pub net: u16,
    pub node: u16,
    pub point: u16,
    /// 1 to 32 lower case letters, digits, `-`, `_` and `.`.
    pub domain: Bytes,
}

impl Addr {
    ghost use Rattle.ftn_addr.specs.Address.{address};

    pub fn copy(&self, alloc: Global) -> Result<Addr, NoMemory>
        ensures { IfOk result (λ copy. address copy ≡ address self.now) }
    {
        Ok(Addr {
            zone: self.zone,
            net: self.net,
            node: self.node,
            point: self.point,
            domain: self.domain.copy(alloc)?,
        })
    }
}

/// What tells one file from another (FTS-1026, M_FILE).
#[derive(Debug, PartialEq, Eq, PartialOrd, Ord, Drop)]
pub struct FileKey {
    /// 1 to 200 bytes.
    pub name: Bytes,
    /// In bytes.
    pub size: u64,
    /// Seconds since the start of 1970.
    pub time: u64,
}

impl FileKey {
    ghost use Rattle.ftn_addr.specs.Key.{key_of};

    pub fn copy(&self, alloc: Global) -> Result<FileKey, NoMemory>
        ensures { IfOk result (λ copy. key_of copy ≡ key_of self.now) }
    {
        Ok(FileKey {
            name: self.name.copy(alloc)?,
            size: self.size,
            time: self.time,
        })
    }
}
