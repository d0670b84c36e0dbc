//! The paths of outbound files.
ghost use Rattle.std.specs.Prelude.{◌≡◌, ◌++◌, [], IfOk, OnOk};
ghost use Rattle.ftn_addr.specs.Address.{address};
ghost use Rattle.bso_outbound.specs.Names.{name_in_zone, outbound_name, path_ending, zone_folder};

use crate::digits::four_digits;
use crate::zone::push_zone_ending;
use crate::{Kind, ending_of};
use ftn_addr::{Addr, Bytes, NoMemory};
use std::alloc::Global;

/// The folder of a zone, where `default` has the base. The only error is want of memory.
pub fn zone_folder(alloc: Global, base: &Bytes, zone: u16, default: u16) -> Result<Bytes, NoMemory>
    ensures { IfOk result (λ folder. folder.list ≡ zone_folder base.now.list zone default) }
{
    let mut folder = base.copy(alloc)?;
    push_zone_ending(zone, default, &mut folder)?;
    Ok(folder)
}

/// Adds the name that a file of an address has in the folder of its zone, but for its ending.
fn push_digits(addr: &Addr, name: &mut Bytes) -> Result<(), NoMemory>
    ensures { OnOk result (name.new.list ≡ name.old.list ++ name_in_zone (addr.now.net, addr.now.node) addr.now.point []) }
{
    name.push_slice(&four_digits(addr.net))?;
    name.push_slice(&four_digits(addr.node))?;
    if addr.point == 0 {
        return Ok(());
    }
    name.push_slice(b".pnt/0000")?;
    name.push_slice(&four_digits(addr.point))
}

/// The path of what belongs to an address and ends so.
fn path_ending(
    alloc: Global,
    addr: &Addr,
    end: &[u8],
    base: &Bytes,
    default: u16,
) -> Result<Bytes, NoMemory>
    ensures { IfOk result (λ path. path.list ≡ path_ending (address addr.now) end.now base.now.list default) }
{
    let mut path = zone_folder(alloc, base, addr.zone, default)?;
    path.push_slice(b"/")?;
    push_digits(addr, &mut path)?;
    path.push_slice(end)?;
    Ok(path)
}

/// The path of an outbound file: for whom and what it is, in the outbound of that base, whose own folder
/// is for the zone `zone` (FTS-5005). The only error is want of memory.
pub fn name_of(
    alloc: Global,
    addr: &Addr,
    kind: Kind,
    base: &Bytes,
    zone: u16,
) -> Result<Bytes, NoMemory>
    ensures { IfOk result (λ name. name.list ≡ outbound_name (address addr.now) kind base.now.list zone) }
{
    path_ending(alloc, addr, &ending_of(kind), base, zone)
}
