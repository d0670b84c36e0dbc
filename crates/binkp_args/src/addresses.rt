//! The addresses of an M_ADR.
ghost use Rattle.std.specs.Prelude.{◌≡◌, ◌++◌, map, OnOk};
ghost use Rattle.std.specs.Option.{option_to_list};
ghost use Rattle.ftn_addr.specs.Address.{address};
ghost use Rattle.binkp_args.specs.Addresses.{address_in, addresses_of};
ghost use Rattle.ftn_addr.specs.Outcomes.{Gives};

use crate::fault::ArgFault;
use ftn_addr::{Addr, AddrFault, NoMemory, read_addr};
use std::alloc::Global;

/// Adds the address that a word spells, if it spells one.
fn push_readable(
    alloc: Global,
    word: &[u8],
    home: &Addr,
    addrs: &mut Vec<Addr>,
) -> Result<(), NoMemory>
    ensures { OnOk result (map address addrs.new.items ≡ map address addrs.old.items ++ option_to_list (address_in (address home.now) word.now)) }
{
    match read_addr(alloc, word, home) {
        Ok(addr) => {
            addrs.push(addr)?;
            Ok(())
        }
        Err(AddrFault::NoMemory) => Err(NoMemory),
        Err(_) => Ok(()),
    }
}

/// The addresses of the words. Words that spell none are passed over.
pub(crate) fn addresses_of(
    alloc: Global,
    words: &[&[u8]],
    home: &Addr,
) -> Result<Vec<Addr>, ArgFault>
    ensures { Gives ArgFault.NoMemory (λ addrs. map address addrs.items) result (addresses_of (address home.now) (map (λ w. w.now) words.now)) }
{
    let mut addrs = Vec::new(alloc);
    for word in words {
        push_readable(alloc, *word, home, &mut addrs)?;
    }
    if addrs.is_empty() {
        return Err(ArgFault::NoAddress);
    }
    Ok(addrs)
}
