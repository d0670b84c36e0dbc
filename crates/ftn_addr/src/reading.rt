ghost use Rattle.std.specs.Prelude.{◌≡◌, None, option_map, IfOk};
ghost use Rattle.ftn_addr.specs.Address.{address};
ghost use Rattle.ftn_addr.specs.Content.{Content};
ghost use Rattle.ftn_addr.specs.Limits.{IsAddress};
ghost use Rattle.ftn_addr.specs.Outcomes.{Gives};
ghost use Rattle.ftn_addr.specs.Reading.{number_at, number_or, domain_at, domain_or, reading};
ghost use Rattle.ftn_addr.specs.Views.{piece, pieces};
ghost use Rattle.ftn_addr.specs.declared.reading.AddrFault.TheVariants.{NoMemory as OutOfMemory};

use crate::part::{Part, Parts};
use crate::{Addr, Bytes, MAX_ADDRESS_NUMBER, NoMemory, is_domain, read_digits};
use std::alloc::Global;
use thiserror::Error;

/// Why a text is no address. A place is the offset of the bad part's first byte.
#[derive(Clone, Copy, Debug, PartialEq, Eq, Error)]
pub enum AddrFault {
    #[error("no `/` before the first `@`")]
    NoNet,
    #[error("no number at {0}")]
    BadNumber(u64),
    #[error("too large a number at {0}")]
    TooBig(u64),
    #[error("no domain at {0}")]
    BadDomain(u64),
    #[error("out of memory")]
    NoMemory,
}

impl From<NoMemory> for AddrFault {
    ghost from_gives = { λ _ fault. fault ≡ OutOfMemory };

    fn from(_error: NoMemory) -> AddrFault {
        AddrFault::NoMemory
    }
}

#[tactic(auto, unfolding(crate::specs::Reading::number_at))]
fn number(part: Part<'_>) -> Result<u16, AddrFault>
    ensures { result ≡ number_at (piece part.entry) }
{
    let place = part.place as u64;
    let number = read_digits(part.bytes).ok_or(AddrFault::BadNumber(place))?;
    if number > u64::from(MAX_ADDRESS_NUMBER) {
        return Err(AddrFault::TooBig(place));
    }
    Ok(number as u16)
}

fn number_or(part: Option<Part<'_>>, missing: u16) -> Result<u16, AddrFault>
    ensures { result ≡ number_or (option_map piece part.entry) missing }
{
    match part {
        Some(part) => number(part),
        None => Ok(missing),
    }
}

#[tactic(auto, unfolding(crate::specs::Reading::domain_at))]
fn domain(alloc: Global, part: Part<'_>) -> Result<Bytes, AddrFault>
    ensures { Gives AddrFault.NoMemory (λ (b : Content). b.list) result (domain_at (piece part.entry)) }
{
    if !is_domain(part.bytes) {
        return Err(AddrFault::BadDomain(part.place as u64));
    }
    Ok(Bytes::lower_case(alloc, part.bytes)?)
}

fn domain_or(alloc: Global, part: Option<Part<'_>>, missing: &Bytes) -> Result<Bytes, AddrFault>
    ensures { Gives AddrFault.NoMemory (λ (b : Content). b.list) result (domain_or (option_map piece part.entry) missing.now.list) }
{
    match part {
        Some(part) => domain(alloc, part),
        None => Ok(missing.copy(alloc)?),
    }
}

fn spelled(alloc: Global, text: &[u8], home: &Addr) -> Result<Addr, AddrFault>
    ensures { Gives AddrFault.NoMemory address result (reading text.now (address home.now)) }
{
    let parts = Parts::of(text).ok_or(AddrFault::NoNet)?;
    let zone = number_or(parts.zone, home.zone)?;
    let net = number(parts.net)?;
    let node = number(parts.node)?;
    let point = number_or(parts.point, 0)?;
    let domain = domain_or(alloc, parts.domain, &home.domain)?;
    Ok(Addr {
        zone,
        net,
        node,
        point,
        domain,
    })
}

/// Reads an address. What the text leaves out is the home's, and a missing point is 0; the leftmost bad
/// part is told. Of a home within the limits only addresses within the limits are read.
pub fn read_addr(alloc: Global, text: &[u8], home: &Addr) -> Result<Addr, AddrFault>
    ensures reads { Gives AddrFault.NoMemory address result (reading text.now (address home.now)) }
    ensures limits { IsAddress (address home.now) → IfOk result (λ addr. IsAddress (address addr)) }
{
    spelled(alloc, text, home)
}
