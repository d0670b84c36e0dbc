//! Fields that are read from the front of bytes.
ghost use Rattle.std.specs.Prelude.{◌≡◌, ◌≤◌, ◌<◌, ◌++◌, ◌∷◌, length, Ok, IfOk};
ghost use Rattle.ftn_addr.specs.Address.{address};
ghost use Rattle.ftn_addr.specs.Content.{Content};
ghost use Rattle.ftn_addr.specs.Key.{key_of};
ghost use Rattle.ftn_addr.specs.Limits.{IsAddress, IsKey};
ghost use Rattle.ftn_addr.specs.Writing.{canonical};
ghost use Rattle.ledger_rec.specs.Limits.{HasShortNumbers};
ghost use Rattle.ftn_addr.specs.Outcomes.{Gives, GivesExactly};
ghost use Rattle.ledger_rec.specs.Reading.{if_canonical, bytes_at, byte_at, short_at, number_at, wide_at, canonical_at, address_at, key_at, path_at};
ghost use Rattle.ledger_rec.specs.Spelling.{number_bytes, wide_bytes, short_bytes, address_bytes, key_bytes, path_bytes};

use crate::RecFault;
use ftn_addr::{Addr, AddrFault, Bytes, FileKey, read_addr, write_addr};
use std::alloc::Global;

/// So many bytes, and what is left behind them.
#[tactic(auto, unfolding(crate::specs::Reading::bytes_at))]
fn bytes_at(bytes: &[u8], len: usize) -> Result<(&[u8], &[u8]), RecFault>
    ensures gives { GivesExactly (λ x. (x.0.now, x.1.now)) result (bytes_at len bytes.now) }
    ensures spelled { IfOk result (λ x. bytes.now ≡ x.0.now ++ x.1.now) }
    ensures len { IfOk result (λ x. length x.0.now ≡ len) }
{
    if bytes.len() < len {
        return Err(RecFault::BadRecord);
    }
    Ok(bytes.split_at(len))
}

/// A byte from `low` to `high`.
#[tactic(auto, unfolding(crate::specs::Reading::byte_at))]
pub(crate) fn byte_at(bytes: &[u8], low: u8, high: u8) -> Result<(u8, &[u8]), RecFault>
    ensures gives { GivesExactly (λ x. (x.0, x.1.now)) result (byte_at low high bytes.now) }
    ensures spelled { IfOk result (λ x. bytes.now ≡ x.0 ∷ x.1.now) }
    ensures low { IfOk result (λ x. low ≤ x.0) }
    ensures high { IfOk result (λ x. x.0 ≤ high) }
{
    match bytes {
        [] => Err(RecFault::BadRecord),
        [byte, rest @ ..] => {
            if low <= *byte && *byte <= high {
                Ok((*byte, rest))
            } else {
                Err(RecFault::BadRecord)
            }
        }
    }
}

#[tactic(auto, unfolding(crate::specs::Reading::short_at))]
fn short_at(bytes: &[u8]) -> Result<(u16, &[u8]), RecFault>
    ensures gives { GivesExactly (λ x. (x.0, x.1.now)) result (short_at bytes.now) }
    ensures spelled { IfOk result (λ x. bytes.now ≡ short_bytes x.0 ++ x.1.now) }
{
    let (front, rest) = bytes_at(bytes, 2)?;
    Ok((u16::from_be_bytes([front[0], front[1]]), rest))
}

/// A number of four bytes.
#[tactic(auto, unfolding(crate::specs::Reading::number_at))]
pub(crate) fn number_at(bytes: &[u8]) -> Result<(u32, &[u8]), RecFault>
    ensures gives { GivesExactly (λ x. (x.0, x.1.now)) result (number_at bytes.now) }
    ensures spelled { IfOk result (λ x. bytes.now ≡ number_bytes x.0 ++ x.1.now) }
{
    let (front, rest) = bytes_at(bytes, 4)?;
    let number = u32::from_be_bytes([front[0], front[1], front[2], front[3]]);
    Ok((number, rest))
}

/// A number of eight bytes.
#[tactic(auto, unfolding(crate::specs::Reading::wide_at))]
pub(crate) fn wide_at(bytes: &[u8]) -> Result<(u64, &[u8]), RecFault>
    ensures gives { GivesExactly (λ x. (x.0, x.1.now)) result (wide_at bytes.now) }
    ensures spelled { IfOk result (λ x. bytes.now ≡ wide_bytes x.0 ++ x.1.now) }
{
    let (front, rest) = bytes_at(bytes, 8)?;
    let number = u64::from_be_bytes([
        front[0], front[1], front[2], front[3], front[4], front[5], front[6], front[7],
    ]);
    Ok((number, rest))
}

/// The address, where this is its canonical text.
fn if_canonical(alloc: Global, addr: Addr, text: &[u8]) -> Result<Addr, RecFault>
    ensures gives { Gives RecFault.NoMemory address result (if_canonical text.now (Ok (address addr))) }
    ensures same { IfOk result (λ a. a ≡ addr) }
    ensures spelled { IfOk result (λ a. text.now ≡ canonical (address a)) }
    ensures short { IfOk result (λ a. HasShortNumbers (address a)) }
{
    let mut written = Bytes::new(alloc);
    write_addr(alloc, &addr, &mut written)?;
    if written.as_slice() == text {
        Ok(addr)
    } else {
        Err(RecFault::BadRecord)
    }
}

/// The address whose canonical text this is.
#[tactic(auto, unfolding(crate::specs::Reading::canonical_at))]
fn canonical_at(alloc: Global, text: &[u8], home: &Addr) -> Result<Addr, RecFault>
    ensures gives { Gives RecFault.NoMemory address result (canonical_at (address home.now) text.now) }
    ensures spelled { IfOk result (λ a. text.now ≡ canonical (address a)) }
    ensures limits { IfOk result (λ a. IsAddress (address a)) }
{
    match read_addr(alloc, text, home) {
        Ok(addr) => if_canonical(alloc, addr, text),
        Err(AddrFault::NoMemory) => Err(RecFault::NoMemory),
        Err(
            AddrFault::NoNet
            | AddrFault::BadNumber(_)
            | AddrFault::TooBig(_)
            | AddrFault::BadDomain(_),
        ) => Err(RecFault::BadRecord),
    }
}

/// One byte of length, and the canonical text of an address.
#[tactic(auto, unfolding(crate::specs::Reading::address_at))]
pub(crate) fn address_at<'a>(
    alloc: Global,
    bytes: &'a [u8],
    home: &Addr,
) -> Result<(Addr, &'a [u8]), RecFault>
    ensures gives { Gives RecFault.NoMemory (λ x. (address x.0, x.1.now)) result (address_at (address home.now) bytes.now) }
    ensures spelled { IfOk result (λ x. bytes.now ≡ address_bytes (address x.0) ++ x.1.now) }
    ensures limits { IfOk result (λ x. IsAddress (address x.0)) }
{
    let (len, rest) = byte_at(bytes, 0, 255)?;
    let (text, rest) = bytes_at(rest, usize::from(len))?;
    let addr = canonical_at(alloc, text, home)?;
    Ok((addr, rest))
}

/// One byte of length, a name of 1 to 200 bytes, the size and the time.
#[tactic(auto, unfolding(crate::specs::Reading::key_at))]
pub(crate) fn key_at<'a>(alloc: Global, bytes: &'a [u8]) -> Result<(FileKey, &'a [u8]), RecFault>
    ensures gives { Gives RecFault.NoMemory (λ x. (key_of x.0, x.1.now)) result (key_at bytes.now) }
    ensures spelled { IfOk result (λ x. bytes.now ≡ key_bytes (key_of x.0) ++ x.1.now) }
    ensures limits { IfOk result (λ x. IsKey (key_of x.0)) }
{
    let (len, rest) = byte_at(bytes, 1, 200)?;
    let (name, rest) = bytes_at(rest, usize::from(len))?;
    let (size, rest) = wide_at(rest)?;
    let (time, rest) = wide_at(rest)?;
    let key = FileKey {
        name: Bytes::from_slice(alloc, name)?,
        size,
        time,
    };
    Ok((key, rest))
}

/// Two bytes of length, and at most 1,024 bytes.
#[tactic(auto, unfolding(crate::specs::Reading::path_at))]
pub(crate) fn path_at<'a>(alloc: Global, bytes: &'a [u8]) -> Result<(Bytes, &'a [u8]), RecFault>
    ensures gives { Gives RecFault.NoMemory (λ (x : Content × _). (x.0.list, x.1.now)) result (path_at bytes.now) }
    ensures spelled { IfOk result (λ x. bytes.now ≡ path_bytes x.0.list ++ x.1.now) }
    ensures limits { IfOk result (λ x. length x.0.list ≤ 1024) }
{
    let (len, rest) = short_at(bytes)?;
    if len > 1024 {
        return Err(RecFault::BadRecord);
    }
    let (path, rest) = bytes_at(rest, usize::from(len))?;
    Ok((Bytes::from_slice(alloc, path)?, rest))
}
