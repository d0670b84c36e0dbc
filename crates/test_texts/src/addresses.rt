//! Addresses, and the keys of files.
ghost use Rattle.std.specs.Prelude.{IfOk};
ghost use Rattle.ftn_addr.specs.Address.{address};
ghost use Rattle.ftn_addr.specs.Limits.{IsAddress};

use anyhow::Result;
use ftn_addr::{
    Addr, AddrFault, Bytes, FileKey, NoMemory, is_same_address, is_same_key, read_addr, write_addr,
};
use std::alloc::Global;
use test_script::{bytes, number, shown, word};

// The node that reads.
fn own(alloc: Global) -> Result<Addr, NoMemory>
    ensures { IfOk result (λ addr. IsAddress (address addr)) }
{
    Ok(Addr {
        zone: 2,
        net: 5020,
        node: 1042,
        point: 0,
        domain: Bytes::from_slice(alloc, b"fidonet")?,
    })
}

/// The address that 2:5020/1042@fidonet reads of a text.
pub fn address_of(alloc: Global, text: &[u8]) -> Result<Addr, AddrFault>
    ensures { IfOk result (λ addr. IsAddress (address addr)) }
{
    let own = own(alloc)?;
    read_addr(alloc, text, &own)
}

/// The numbers and the domain of an address.
pub fn address_text(alloc: Global, addr: &Addr) -> Result<String, NoMemory> {
    let domain = shown(alloc, addr.domain.as_slice())?;
    let (zone, net, node, point) = (addr.zone, addr.net, addr.node, addr.point);
    Ok(format!(in alloc; "{zone}:{net}/{node}.{point}@{domain}")?)
}

/// Each address between brackets.
pub fn addresses_text(alloc: Global, addrs: &[Addr]) -> Result<String, NoMemory> {
    let mut out = String::new(alloc);
    for addr in addrs {
        let addr = address_text(alloc, addr)?;
        let addr = format!(in alloc; "[{addr}]")?;
        out.push_str(addr.as_str())?;
    }
    Ok(out)
}

fn written(alloc: Global, addr: &Addr) -> Result<String, NoMemory> {
    let mut text = Bytes::new(alloc);
    write_addr(alloc, addr, &mut text)?;
    shown(alloc, text.as_slice())
}

// An address by its copy, as it is written, and whether the copy is the same.
fn told(alloc: Global, addr: &Addr) -> Result<String> {
    let written = written(alloc, addr)?;
    let copy = addr.copy(alloc)?;
    let is_same = is_same_address(&copy, addr);
    let read = address_text(alloc, &copy)?;
    Ok(format!(in alloc; "{read} written {written} copy same {is_same}")?)
}

/// What is read of a text, or the fault.
pub fn read(alloc: Global, text: &[u8]) -> Result<String> {
    match address_of(alloc, text) {
        Ok(addr) => told(alloc, &addr),
        Err(fault) => Ok(format!(in alloc; "{fault:?}")?),
    }
}

/// The key of a file that came in 2001.
pub fn key(alloc: Global, name: &str, size: u64) -> Result<FileKey, NoMemory> {
    Ok(FileKey {
        name: bytes(alloc, name)?,
        size,
        time: 1_000_000_000,
    })
}

// A key by its copy, and whether that is the same.
fn key_copied(alloc: Global, key: &FileKey) -> Result<String> {
    let copy = key.copy(alloc)?;
    let (size, time, is_same) = (copy.size, copy.time, is_same_key(&copy, key));
    let name = shown(alloc, copy.name.as_slice())?;
    Ok(format!(in alloc; "{name} {size} {time} copy same {is_same}")?)
}

/// The copy of a file's key, and whether that is the same.
pub fn copy_of_key(alloc: Global, words: &[&str]) -> Result<String> {
    let size = number(words, 2)?;
    let key = key(alloc, word(words, 1), size)?;
    key_copied(alloc, &key)
}
