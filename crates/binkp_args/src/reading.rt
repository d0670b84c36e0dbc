ghost use Rattle.std.specs.Prelude.{map, IfOk};
ghost use Rattle.ftn_addr.specs.Address.{address};
ghost use Rattle.ftn_addr.specs.Limits.{IsAddress};
ghost use Rattle.binkp_args.specs.Command.{command_text, worded, command_of};
ghost use Rattle.binkp_args.specs.Limits.{HasFile, HasAddresses};
ghost use Rattle.ftn_addr.specs.Outcomes.{Gives};

use crate::addresses::addresses_of;
use crate::command::Command;
use crate::fault::ArgFault;
use crate::file::{file_of, offered_of, wanted_of};
use crate::words::{split_words, trimmed};
use ftn_addr::{Addr, Bytes};
use std::alloc::Global;

/// A command whose argument is words.
#[tactic(auto, unfolding(crate::specs::Command::worded))]
fn worded(alloc: Global, number: u8, words: &[&[u8]], home: &Addr) -> Result<Command, ArgFault>
    ensures { Gives ArgFault.NoMemory command_text result (worded (address home.now) number (map (λ w. w.now) words.now)) }
{
    Ok(match number {
        1 => Command::Adr(addresses_of(alloc, words, home)?),
        3 => {
            let (key, offset) = offered_of(alloc, words)?;
            Command::File(key, offset)
        }
        6 => Command::Got(file_of(alloc, words)?),
        9 => {
            let (key, offset) = wanted_of(alloc, words)?;
            Command::Get(key, offset)
        }
        10 => Command::Skip(file_of(alloc, words)?),
        _ => Command::Other(number),
    })
}

#[tactic(auto, unfolding(crate::specs::Command::command_of))]
fn command_of(alloc: Global, number: u8, args: &[u8], home: &Addr) -> Result<Command, ArgFault>
    ensures { Gives ArgFault.NoMemory command_text result (command_of (address home.now) number args.now) }
{
    let text = trimmed(args);
    match number {
        0 => Ok(Command::Nul(Bytes::from_slice(alloc, text)?)),
        2 => Ok(Command::Pwd(Bytes::from_slice(alloc, text)?)),
        4 => Ok(Command::Accept(Bytes::from_slice(alloc, text)?)),
        5 => Ok(Command::Eob),
        7 => Ok(Command::Err(Bytes::from_slice(alloc, text)?)),
        8 => Ok(Command::Bsy(Bytes::from_slice(alloc, text)?)),
        _ => {
            let words = split_words(alloc, text)?;
            worded(alloc, number, words.as_slice(), home)
        }
    }
}

/// Reads a command frame's number and argument (FTS-1026). An address without a zone or a
/// domain has the home's. A file has a name of 1 to 200 bytes, a size of at most [`ftn_addr::MAX_SIZE`],
/// a time below 2^63 and an offset of at most its size; addresses are within the home's limits.
///
/// # Errors
/// The first fault of the words from the left; then `TooLarge`, and then `PastEnd`. In an M_ADR words
/// that are no address are passed over, and `NoAddress` comes where none is left.
pub fn read_command(
    alloc: Global,
    number: u8,
    args: &[u8],
    home: &Addr,
) -> Result<Command, ArgFault>
    ensures reads { Gives ArgFault.NoMemory command_text result (command_of (address home.now) number args.now) }
    ensures files { IfOk result (λ command. HasFile (command_text command)) }
    ensures addresses { IsAddress (address home.now) → IfOk result (λ command. HasAddresses (command_text command)) }
{
    command_of(alloc, number, args, home)
}
