//! A disk in memory at rest, over which a store may be opened.
ghost use Rattle.disk_model.specs.Moments.{AtRest};
ghost use Rattle.mem_disk.specs.MemoryDisk.{mem_files, mem_images, mem_moment};
ghost use Rattle.mem_node.specs.Ready.{IsReadyDisk};

use ftn_addr::NoMemory;
use mem_disk::MemDisk;
use node_store::what_is_read_is_ready;
use std::alloc::Global;

/// A disk in memory that was just stopped: a stop now leaves what is read. It has made no call.
#[derive(Drop)]
pub struct Resting {
    disk: MemDisk,
    ghost rest: { AtRest mem_files mem_moment mem_images disk },
}

impl Resting {
    /// An empty disk, without files of other programs.
    pub fn new(alloc: Global) -> Resting {
        Resting {
            disk: MemDisk::new(alloc),
        }
    }

    /// The disk, to be read.
    pub fn into_disk(self) -> MemDisk {
        self.disk
    }

    /// The disk, over which a store may be opened.
    pub fn into_ready(self) -> MemDisk
        ensures { IsReadyDisk result }
    {
        what_is_read_is_ready();
        self.disk
    }

    /// The same disk, of which the call of that number is to fail.
    pub fn failing_at(self, call: u64) -> Result<Resting, NoMemory> {
        let Resting { mut disk } = self;
        disk.fail_at(call)?;
        Ok(Resting { disk })
    }
}

/// The disk as a stop behind so many of its calls, or behind all of them where there are fewer, may leave it.
pub fn stopped(disk: MemDisk, after: u64, pick: u64) -> Result<Resting, NoMemory> {
    let calls = disk.calls();
    match disk.stop(after.min(calls), pick) {
        Ok(disk) => Ok(Resting { disk }),
        Err((_, NoMemory)) => Err(NoMemory),
    }
}

/// The disk as a stop now leaves it, at which nothing unsynced lasts.
pub fn reopened(disk: MemDisk) -> Result<Resting, NoMemory> {
    stopped(disk, u64::MAX, 0)
}

/// How many numbers pick the images of a stop behind so many of its calls, or behind all of them where there are fewer.
pub fn picks_at(disk: &MemDisk, after: u64) -> u64 {
    disk.picks(after.min(disk.calls()))
}
