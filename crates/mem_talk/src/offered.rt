//! Addresses, and the files that nodes queue.
ghost use Rattle.std.specs.Prelude.{◌≡◌, ◌≤◌, IfOk};
ghost use Rattle.ftn_addr.specs.Address.{address as address_of};
ghost use Rattle.ftn_addr.specs.Key.{key_of};
ghost use Rattle.ftn_addr.specs.Limits.{IsAddress, IsKey};

use ftn_addr::{Addr, Bytes, FileKey, NoMemory};
use session_core::Side;
use std::alloc::Global;

/// The address `2:5020/NODE@fidonet`; of numbers above 32,767 the rest.
pub fn address(alloc: Global, node: u16) -> Result<Addr, NoMemory>
    ensures { IfOk result (λ addr. IsAddress (address_of addr)) }
{
    Ok(Addr {
        zone: 2,
        net: 5020,
        node: node % 32_768,
        point: 0,
        domain: Bytes::from_slice(alloc, b"fidonet")?,
    })
}

/// The side of a session that calls the node of that number, or answers where there is none.
pub fn side_of(alloc: Global, calls: Option<u16>) -> Result<Side, NoMemory> {
    match calls {
        Some(number) => Ok(Side::Calls(address(alloc, number)?)),
        None => Ok(Side::Answers),
    }
}

/// A file of the tests: its number, of which three digits stand in its name, and its size in bytes.
#[derive(Clone, Copy)]
pub struct Offered(pub u16, pub u32);

impl Offered {
    /// Its key: `f007.dat` with its size, and a time of its own.
    pub fn key(self, alloc: Global) -> Result<FileKey, NoMemory>
        ensures limits { IfOk result (λ key. IsKey (key_of key)) }
        ensures size { IfOk result (λ key. key.size ≡ self.1) }
    {
        let name = [
            b'f',
            digit(self.0 / 100),
            digit(self.0 / 10),
            digit(self.0),
            b'.',
            b'd',
            b'a',
            b't',
        ];
        Ok(FileKey {
            name: Bytes::from_slice(alloc, &name)?,
            size: u64::from(self.1),
            time: 1_000_000_000 + u64::from(self.0),
        })
    }

    /// Its bytes: a pattern that differs from file to file and from place to place.
    pub fn content(self, alloc: Global) -> Result<Bytes, NoMemory> {
        let mut bytes = Vec::new(alloc);
        for place in 0..self.1 {
            bytes.push(self.byte_at(place))?;
        }
        Bytes::from_slice(alloc, bytes.as_slice())
    }

    fn byte_at(self, place: u32) -> u8 {
        let turned = (place % 251) * 7 + place / 4096 % 256 + u32::from(self.0);
        (turned % 251) as u8
    }
}

// The last digit of a number.
fn digit(number: u16) -> u8 {
    b'0' + (number % 10) as u8
}
