//! What a take-in leaves, told in texts.
ghost use Rattle.std.specs.Prelude.{◌≤◌};

use crate::files::names_in;
use crate::resting::{Resting, reopened};
use crate::taking::{list_of, take_in_once};
use disk_model::Yard;
use ftn_addr::{Bytes, Failed, NoMemory};
use mem_disk::MemDisk;
use outbound_model::Fate;
use outbound_take::{TakeFault, Taken};
use std::alloc::Global;
use std::test::Fail;

/// What a take-in leaves.
#[derive(Drop)]
pub struct Behind {
    fates: Result<Vec<Fate>, TakeFault>,
    queue: Bytes,
    outside: Bytes,
}

impl Behind {
    /// What became of each line, packet and request, in order; or why the take-in didn't end.
    pub fn fates(&self) -> &Result<Vec<Fate>, TakeFault> {
        &self.fates
    }

    /// What `list` tells.
    pub fn queue(&self) -> &[u8] {
        self.queue.as_slice()
    }

    /// What stands in the folders `in` and `out`: a line for each file with its size, and one for each folder.
    pub fn outside(&self) -> &[u8] {
        self.outside.as_slice()
    }
}

// What became of each line, packet and request.
fn fates_in(
    alloc: Global,
    answer: Result<Taken, TakeFault>,
) -> Result<Result<Vec<Fate>, TakeFault>, NoMemory> {
    let taken = match answer {
        Ok(taken) => taken,
        Err(fault) => return Ok(Err(fault)),
    };
    let mut fates = Vec::new(alloc);
    for file in &taken.files {
        for fate in &file.fates {
            fates.push(*fate)?;
        }
    }
    Ok(Ok(fates))
}

// The line of what stands at a path: its size, or that it is a folder.
fn push_at(alloc: Global, disk: &mut MemDisk, path: &Bytes, text: &mut Bytes) -> Result<(), Fail> {
    text.push_slice(path.as_slice())?;
    match disk.look(path)? {
        Some(stat) => {
            text.push_slice(b" ")?;
            text.push_number(alloc, stat.size)?;
        }
        None => text.push_slice(b"/")?,
    }
    text.push_slice(b"\n")?;
    Ok(())
}

// The lines of what stands in a folder.
fn push_folder(
    alloc: Global,
    disk: &mut MemDisk,
    folder: &[u8],
    text: &mut Bytes,
) -> Result<(), Fail> {
    let names = names_in(alloc, disk, folder)?;
    for name in &names {
        let mut path = Bytes::from_slice(alloc, folder)?;
        path.push_slice(b"/")?;
        path.push_slice(name.as_slice())?;
        push_at(alloc, disk, &path, text)?;
    }
    Ok(())
}

fn outside_of(alloc: Global, disk: &mut MemDisk) -> Result<Bytes, Fail> {
    let mut text = Bytes::new(alloc);
    push_folder(alloc, disk, b"in", &mut text)?;
    push_folder(alloc, disk, b"out", &mut text)?;
    Ok(text)
}

/// What a take-in for the node 5047/13 of that zone, or for a point of it, leaves.
pub fn left_behind(alloc: Global, disk: Resting, zone: u16, point: u16) -> Result<Box<Behind>, Fail>
    requires zone { zone ≤ 32767 }
    requires point { point ≤ 32767 }
{
    let (answer, mut disk) = take_in_once(alloc, disk, zone, point)?.ok_or(Failed)?;
    let fates = fates_in(alloc, answer)?;
    let outside = outside_of(alloc, &mut disk)?;
    let queue = list_of(alloc, reopened(disk)?)?;
    Ok(Box::new(
        alloc,
        Behind {
            fates,
            queue,
            outside,
        },
    )?)
}
