ghost use Rattle.std.specs.Prelude.{◌≡◌, ◌++◌, OnOk, OnErr, Ok};
ghost use Rattle.ftn_addr.specs.Address.{Address, address};
ghost use Rattle.ftn_addr.specs.Reading.{reading};
ghost use Rattle.ftn_addr.specs.Limits.{IsAddress};
ghost use Rattle.ftn_addr.specs.Writing.{point_text, canonical};

use crate::{Addr, Bytes, NoMemory};
use std::alloc::Global;

fn push_point(alloc: Global, point: u16, text: &mut Bytes) -> Result<(), NoMemory>
    ensures { OnOk result (text.new.list ≡ text.old.list ++ point_text point) }
{
    if point == 0 {
        return Ok(());
    }
    text.push_slice(b".")?;
    text.push_number(alloc, u64::from(point))
}

/// Writes the canonical text at the end of `out`.
pub fn write_addr(alloc: Global, addr: &Addr, out: &mut Bytes) -> Result<(), NoMemory>
    ensures ok { OnOk result (out.new.list ≡ out.old.list ++ canonical (address addr.now)) }
    ensures err { OnErr result (out.new.list ≡ out.old.list) }
{
    let domain = Bytes::lower_case(alloc, addr.domain.as_slice())?;
    let mut text = Bytes::new(alloc);
    text.push_number(alloc, u64::from(addr.zone))?;
    text.push_slice(b":")?;
    text.push_number(alloc, u64::from(addr.net))?;
    text.push_slice(b"/")?;
    text.push_number(alloc, u64::from(addr.node))?;
    push_point(alloc, addr.point, &mut text)?;
    text.push_slice(b"@")?;
    text.push_slice(domain.as_slice())?;
    out.push_slice(text.as_slice())
}

/// What is written is read again as the same address, whatever the home.
pub fn reads_what_is_written()
    ensures { (a home : Address) → IsAddress a → reading (canonical a) home ≡ Ok a }
{}
