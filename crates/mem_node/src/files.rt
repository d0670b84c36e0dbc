//! Own files and files of other programs: put on a disk in memory that rests, and read back from one.
use crate::resting::{Resting, reopened};
use disk_model::{Copied, Disk, ListFault, Name, Yard};
use ftn_addr::{Bytes, Failed, MAX_SIZE, NoMemory};
use ledger_file::put_file;
use mem_disk::MemDisk;
use std::alloc::Global;
use std::test::Fail;

/// A disk with an own file of these bytes.
pub fn with_own(disk: Resting, name: &[u8], bytes: &[u8]) -> Result<Resting, Fail> {
    let mut disk = disk.into_disk();
    let name = Name::new(name).ok_or(Failed)?;
    put_file(&mut disk, &name, bytes)?;
    Ok(reopened(disk)?)
}

/// A disk with these settings alone.
pub fn settled(alloc: Global, text: &[u8]) -> Result<Resting, Fail> {
    with_settings(Resting::new(alloc), text)
}

/// A disk with these settings in place of its own.
pub fn with_settings(disk: Resting, text: &[u8]) -> Result<Resting, Fail> {
    with_own(disk, b"binkp.conf", text)
}

/// A disk with a file of another program more, of the time 900,000,000.
pub fn with_outside(
    alloc: Global,
    disk: Resting,
    path: &[u8],
    bytes: &[u8],
) -> Result<Resting, NoMemory> {
    with_timed(alloc, disk, path, bytes, 900_000_000)
}

/// A disk with a file of another program more, of that time.
pub fn with_timed(
    alloc: Global,
    disk: Resting,
    path: &[u8],
    bytes: &[u8],
    time: u64,
) -> Result<Resting, NoMemory> {
    let mut disk = disk.into_disk();
    disk.put_out(&Bytes::from_slice(alloc, path)?, bytes, time)?;
    reopened(disk)
}

/// A disk with these files of other programs, of each the path and the bytes. Each has the time 900,000,000.
pub fn disk_with(alloc: Global, files: &[(&[u8], &[u8])]) -> Result<Resting, NoMemory> {
    let mut disk = MemDisk::new(alloc);
    for (path, bytes) in files {
        disk.put_out(&Bytes::from_slice(alloc, path)?, bytes, 900_000_000)?;
    }
    reopened(disk)
}

/// The names of the own files.
pub fn files_of(disk: &mut MemDisk) -> Result<Vec<Name>, ListFault> {
    disk.list()
}

/// The names of the files that stand in an outside folder, in the order of their bytes.
pub fn names_in(alloc: Global, disk: &mut MemDisk, folder: &[u8]) -> Result<Vec<Bytes>, Fail> {
    let folder = Bytes::from_slice(alloc, folder)?;
    Ok(disk.names(&folder)?)
}

/// The size of an outside file; None where it doesn't stand.
pub fn size_at(alloc: Global, disk: &mut MemDisk, path: &[u8]) -> Result<Option<u64>, Fail> {
    match disk.look(&Bytes::from_slice(alloc, path)?)? {
        Some(stat) => Ok(Some(stat.size)),
        None => Ok(None),
    }
}

/// The bytes of an own file; None where it doesn't stand.
pub fn own_file<D: Disk>(
    alloc: Global,
    disk: &mut D,
    name: &[u8],
) -> Result<Option<Vec<u8>>, Fail> {
    let name = Name::new(name).ok_or(Failed)?;
    let Some(len) = disk.stat(&name)? else {
        return Ok(None);
    };
    let mut bytes = vec![in alloc; 0; len as usize]?;
    disk.read_at(&name, 0, &mut bytes)?;
    Ok(Some(bytes))
}

/// The bytes of an outside file; None where it doesn't stand. A copy is left in the own folder.
pub fn outside_file(
    alloc: Global,
    disk: &mut MemDisk,
    path: &[u8],
) -> Result<Option<Vec<u8>>, Fail> {
    let path = Bytes::from_slice(alloc, path)?;
    let name = Name::new(b"copy").ok_or(Failed)?;
    match disk.copy(&path, &name, MAX_SIZE)? {
        Copied::Copied(_) => own_file(alloc, disk, b"copy"),
        Copied::Absent | Copied::Over => Ok(None),
    }
}

/// Whether a file stands, with these bytes.
pub fn is_file(file: Option<Vec<u8>>, bytes: &[u8]) -> bool {
    match file {
        Some(file) => file.as_slice() == bytes,
        None => false,
    }
}
