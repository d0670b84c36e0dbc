//! For whom a file in a folder of the outbound is.
ghost use Rattle.std.specs.Prelude.{◌≡◌, ◌||◌, ◌++◌, ◌∷◌, [], IfOk};
ghost use Rattle.std.specs.Str.{bytes_eq};
ghost use Rattle.ftn_addr.specs.Address.{address};
ghost use Rattle.ftn_addr.specs.Limits.{IsAddress};
ghost use Rattle.node_model.specs.Outside.{path_in};
ghost use Rattle.outbound_places.specs.Files.{FileIn};

use crate::Place;
use crate::place::place_at;
use bso_outbound::addr_of;
use ftn_addr::{Addr, Bytes, NoMemory};
use std::alloc::Global;

/// A file of the outbound: where it stands, and for whom it is.
#[derive(Debug, Drop)]
pub struct OutboundFile {
    pub path: Bytes,
    pub place: Place,
}

/// The path of a name in a folder. The empty folder is where paths without `/` stand, and `/` is the root.
/// The only error is want of memory.
pub fn path_in(alloc: Global, folder: &[u8], name: &[u8]) -> Result<Bytes, NoMemory>
    ensures { IfOk result (λ path. path.list ≡ path_in folder.now name.now) }
{
    let mut path = Bytes::from_slice(alloc, folder)?;
    if !is_bare(folder) {
        path.push_slice(b"/")?;
    }
    path.push_slice(name)?;
    Ok(path)
}

/// Whether names stand behind it without a `/`.
fn is_bare(folder: &[u8]) -> bool
    ensures { result ≡ (bytes_eq folder.now [] || bytes_eq folder.now (47 ∷ [])) }
{
    folder.is_empty() || folder == b"/".as_slice()
}

fn path_of(alloc: Global, folder: &Bytes, name: &Bytes) -> Result<Bytes, NoMemory>
    ensures { IfOk result (λ path. path.list ≡ folder.now.list ++ 47 ∷ name.now.list) }
{
    let mut path = folder.copy(alloc)?;
    path.push_slice(b"/")?;
    path.push_slice(name.as_slice())?;
    Ok(path)
}

/// For whom a file of that name in a folder is, in the outbound of that base, whose own folder is for the
/// zone `zone`: its flow file, netmail or file request (FTS-5005).
///
/// Its path is `folder`, `/` and `name`. The folder above the base is compared byte for byte, names from
/// there on with ASCII case ignored. None exactly where it is for no node or point with numbers of at most
/// 32,767. The only error is want of memory.
pub fn file_in(
    alloc: Global,
    folder: &Bytes,
    name: &Bytes,
    home: &Addr,
    base: &Bytes,
    zone: u16,
) -> Result<Option<OutboundFile>, NoMemory>
    requires { IsAddress (address home.now) }
    ensures { IfOk result (λ found. FileIn base.now.list zone (folder.now.list ++ 47 ∷ name.now.list) found) }
{
    match addr_of(alloc, folder.as_slice(), name.as_slice(), home, base, zone)? {
        None => Ok(None),
        Some((addr, _)) => {
            let path = path_of(alloc, folder, name)?;
            let place = place_at(&addr);
            Ok(Some(OutboundFile { path, place }))
        }
    }
}
