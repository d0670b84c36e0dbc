//! Giving received files away.
ghost use Rattle.std.specs.Prelude.{◌≡◌, ◌<◌, IfOk, IfSome, Some, None, MatchOption};
ghost use Rattle.node_model.specs.Items.{Receipt};
ghost use Rattle.node_model.specs.Outside.{Gift, GivenAs, BothInUse, front_of, path_in};
ghost use Rattle.mem_store.specs.Outsiders.{IsPlanned, outside_of};

use crate::outside::in_use;
use crate::{OutsideFile, Received};
use ftn_addr::{Bytes, NoMemory};
use node_model::{numbered_name, plain_name};
use std::alloc::Global;
use std::marker::Model;

/// A received file that was given away.
#[derive(Debug, Drop)]
pub struct GivenFile {
    /// The number of its receipt.
    pub receipt: u32,
    pub folder: Bytes,
    pub name: Bytes,
    pub bytes: Bytes,
}

impl Model for GivenFile {
    ghost use Rattle.node_model.specs.Outside.{Gift};

    ghost Value = { Gift };

    ghost view = { λ g. record { receipt = g.receipt; folder = g.folder.list; name = g.name.list; bytes = g.bytes.list } };
}

impl GivenFile {
    pub fn new(
        alloc: Global,
        receipt: u32,
        folder: &Bytes,
        name: Bytes,
        bytes: &[u8],
    ) -> Result<GivenFile, NoMemory>
        ensures { IfOk result (λ gift. gift ≡ record { receipt = receipt; folder = folder.now.list; name = name.list; bytes = bytes.now }) }
    {
        Ok(GivenFile {
            receipt,
            folder: folder.copy(alloc)?,
            name,
            bytes: Bytes::from_slice(alloc, bytes)?,
        })
    }
}

// What the paths in a folder begin with.
fn front_of(alloc: Global, folder: &[u8]) -> Result<Bytes, NoMemory>
    ensures { IfOk result (λ front. front.list ≡ front_of folder.now) }
{
    let mut front = Bytes::from_slice(alloc, folder)?;
    if !folder.is_empty() && folder != b"/".as_slice() {
        front.push_slice(b"/")?;
    }
    Ok(front)
}

/// The path of a name in a folder.
pub fn path_in(alloc: Global, folder: &Bytes, name: &Bytes) -> Result<Bytes, NoMemory>
    ensures { IfOk result (λ path. path.list ≡ path_in folder.now.list name.now.list) }
{
    let mut path = front_of(alloc, folder.as_slice())?;
    path.push_slice(name.as_slice())?;
    Ok(path)
}

/// Under which name a received file is given in a folder; None where both its names are in use.
pub fn name_for(
    alloc: Global,
    receipt: u32,
    name: &[u8],
    folder: &Bytes,
    files: &[OutsideFile],
) -> Result<Option<Bytes>, NoMemory>
    ensures { IfOk result (λ found. MatchOption found (BothInUse folder.now.list receipt name.now (outside_of files.now)) (λ free. GivenAs folder.now.list receipt name.now (outside_of files.now) free.list)) }
{
    let plain = plain_name(alloc, name)?;
    let path = path_in(alloc, folder, &plain)?;
    if !in_use(path.as_slice(), files) {
        return Ok(Some(plain));
    }
    let numbered = numbered_name(alloc, receipt, name)?;
    let path = path_in(alloc, folder, &numbered)?;
    if !in_use(path.as_slice(), files) {
        return Ok(Some(numbered));
    }
    Ok(None)
}

/// A gift, and the file of another program that it becomes.
#[derive(Debug, Drop)]
pub struct GiftPlan {
    pub gift: GivenFile,
    pub file: OutsideFile,
}

/// How a received file is given in a folder; None where both its names are in use.
pub fn plan_gift(
    alloc: Global,
    file: &Received,
    folder: &Bytes,
    files: &[OutsideFile],
) -> Result<Option<GiftPlan>, NoMemory>
    ensures { IfOk result (λ plan. MatchOption plan (BothInUse folder.now.list file.now.number file.now.key.name (outside_of files.now)) (λ p. IsPlanned file.now folder.now.list (outside_of files.now) p.file p.gift)) }
{
    let name = match name_for(alloc, file.number(), file.name(), folder, files)? {
        Some(name) => name,
        None => return Ok(None),
    };
    let path = path_in(alloc, folder, &name)?;
    Ok(Some(GiftPlan {
        gift: GivenFile::new(alloc, file.number(), folder, name, file.content())?,
        file: OutsideFile::new(alloc, &path, file.content(), file.time())?,
    }))
}
