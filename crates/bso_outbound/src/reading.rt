//! For whom an outbound file is.
ghost use Rattle.std.specs.Prelude.{◌≡◌, ◌++◌, ◌∷◌, true, IfOk, option_map};
ghost use Rattle.ftn_addr.specs.Address.{address};
ghost use Rattle.ftn_addr.specs.Limits.{IsAddress};
ghost use Rattle.bso_outbound.specs.Paths.{as_compared, last_part, up_to_slash};
ghost use Rattle.bso_outbound.specs.Reading.{AddressOf, IsNumber, IsSpot, Reads, ReadsBy, name_below, named, no_slash};

use crate::slash::{cut_at_slash, up_to_slash};
use crate::spot::{Spot, spot_of};
use crate::zone::zone_of;
use crate::{Kind, last_part};
use ftn_addr::{Addr, Bytes, NoMemory};
use std::alloc::Global;

/// The zone, the node or point and the kind of a file, by its path behind the folder above the base.
fn file_below(path: &[u8], base: &[u8], default: u16) -> Option<(u16, (Spot, Kind))>
    requires { no_slash base.now ≡ true }
    ensures { Reads (λ file. IsNumber file.0 × IsSpot file.1.0) (name_below base.now default) path.now result }
{
    let (folder, name) = cut_at_slash(path)?;
    zone_of(folder, base, default).zip(spot_of(name))
}

/// The zone, the node or point and the kind of a file, by its path.
fn file_at(path: &[u8], base: &[u8], default: u16) -> Option<(u16, (Spot, Kind))>
    ensures { ReadsBy (as_compared base.now) (λ file. IsNumber file.0 × IsSpot file.1.0) (name_below base.now default) path.now result }
{
    let above = up_to_slash(base);
    if !path.starts_with(above) {
        return None;
    }
    file_below(&path[above.len()..], last_part(base), default)
}

fn path_of(alloc: Global, folder: &[u8], name: &[u8]) -> Result<Bytes, NoMemory>
    ensures { IfOk result (λ path. path.list ≡ folder.now ++ 47 ∷ name.now) }
{
    let mut path = Bytes::from_slice(alloc, folder)?;
    path.push_slice(b"/")?;
    path.push_slice(name)?;
    Ok(path)
}

/// For whom a file of an outbound is, and what it is: the inverse of [`name_of`](crate::name_of) over the
/// addresses of the home's domain.
///
/// The path is `folder`, `/` and `name`. The folder above the base is compared byte for byte, names from
/// there on with ASCII case ignored. None exactly where no address with numbers of at most 32,767 has
/// that name. The only error is want of memory.
pub fn addr_of(
    alloc: Global,
    folder: &[u8],
    name: &[u8],
    home: &Addr,
    base: &Bytes,
    zone: u16,
) -> Result<Option<(Addr, Kind)>, NoMemory>
    requires { IsAddress (address home.now) }
    ensures { IfOk result (λ found. AddressOf base.now.list zone home.now.domain.list (folder.now ++ 47 ∷ name.now) (option_map named found)) }
{
    let path = path_of(alloc, folder, name)?;
    match file_at(path.as_slice(), base.as_slice(), zone) {
        None => Ok(None),
        Some((zone, (spot, kind))) => {
            let Spot { net, node, point } = spot;
            let domain = home.domain.copy(alloc)?;
            let addr = Addr {
                zone,
                net,
                node,
                point,
                domain,
            };
            Ok(Some((addr, kind)))
        }
    }
}
