ghost use Rattle.std.specs.Prelude.{◌≡◌, ℕ, ◌<◌, ◌++◌, Ok, length, map, IfOk, OnOk, OnErr};
ghost use Rattle.ftn_addr.specs.Address.{Address, address};
ghost use Rattle.ftn_addr.specs.Frames.{Command as CommandFrame, frame_bytes};
ghost use Rattle.ftn_addr.specs.Key.{key_of};
ghost use Rattle.ftn_addr.specs.Writing.{canonical};
ghost use Rattle.binkp_args.specs.Command.{CommandText, command_text, command_of};
ghost use Rattle.binkp_args.specs.Limits.{IsReadable, IsShort};
ghost use Rattle.binkp_args.specs.Words.{spaced};
ghost use Rattle.binkp_args.specs.Writing.{number_of, key_text, place_text, argument_of, frame_text_of, IsKnown};

use crate::command::Command;
use crate::names::escape;
use ftn_addr::{Addr, Bytes, FileKey, NoMemory, write_addr};
use std::alloc::Global;

fn number_of(command: &Command) -> u8
    ensures { result ≡ number_of (command_text command.now) }
{
    match command {
        Command::Nul(_) => 0,
        Command::Adr(_) => 1,
        Command::Pwd(_) => 2,
        Command::File(_, _) => 3,
        Command::Accept(_) => 4,
        Command::Eob => 5,
        Command::Got(_) => 6,
        Command::Err(_) => 7,
        Command::Bsy(_) => 8,
        Command::Get(_, _) => 9,
        Command::Skip(_) => 10,
        Command::Other(number) => *number,
    }
}

/// The canonical texts of the addresses with one space between them.
fn addresses_text(alloc: Global, addrs: &[Addr]) -> Result<Bytes, NoMemory>
    ensures { IfOk result (λ text. text.list ≡ spaced (map canonical (map address addrs.now))) }
{
    let mut text = Bytes::new(alloc);
    let Some((first, more)) = addrs.split_first() else {
        return Ok(text);
    };
    write_addr(alloc, first, &mut text)?;
    for addr in more {
        text.push_slice(b" ")?;
        write_addr(alloc, addr, &mut text)?;
    }
    Ok(text)
}

fn key_text(alloc: Global, key: &FileKey) -> Result<Bytes, NoMemory>
    ensures { IfOk result (λ text. text.list ≡ key_text (key_of key.now)) }
{
    let mut text = Bytes::new(alloc);
    escape(alloc, key.name.as_slice(), &mut text)?;
    text.push_slice(b" ")?;
    text.push_number(alloc, key.size)?;
    text.push_slice(b" ")?;
    text.push_number(alloc, key.time)?;
    Ok(text)
}

fn place_text(alloc: Global, key: &FileKey, offset: u64) -> Result<Bytes, NoMemory>
    ensures { IfOk result (λ text. text.list ≡ place_text (key_of key.now) offset) }
{
    let mut text = key_text(alloc, key)?;
    text.push_slice(b" ")?;
    text.push_number(alloc, offset)?;
    Ok(text)
}

fn argument_of(alloc: Global, command: &Command) -> Result<Bytes, NoMemory>
    ensures { IfOk result (λ text. text.list ≡ argument_of (command_text command.now)) }
{
    match command {
        Command::Nul(text)
        | Command::Pwd(text)
        | Command::Accept(text)
        | Command::Err(text)
        | Command::Bsy(text) => text.copy(alloc),
        Command::Adr(addrs) => addresses_text(alloc, addrs.as_slice()),
        Command::File(key, offset) | Command::Get(key, offset) => place_text(alloc, key, *offset),
        Command::Got(key) | Command::Skip(key) => key_text(alloc, key),
        Command::Eob | Command::Other(_) => Ok(Bytes::new(alloc)),
    }
}

/// Adds a command's frame at the end of `out`: its header, its number and its argument.
fn put_command(number: u8, args: &[u8], out: &mut Bytes) -> Result<(), NoMemory>
    requires { length args.now < 32767 }
    ensures ok { OnOk result (out.new.list ≡ out.old.list ++ frame_bytes (CommandFrame number args.now)) }
    ensures err { OnErr result (out.new.list ≡ out.old.list) }
{
    let len = args.len() + 1;
    out.reserve(2 + len)?;
    out.push_slice(&[128 + (len / 256) as u8, (len % 256) as u8, number])?;
    out.push_slice(args)
}

/// Writes a command at the end of `out`, as one whole frame. The command isn't `Other`, an M_ADR has an
/// address, and the argument has at most 32,766 bytes.
///
/// # Errors
/// `NoMemory`: `out` holds what it held.
pub fn write_command(alloc: Global, command: &Command, out: &mut Bytes) -> Result<(), NoMemory>
    requires known { IsKnown (command_text command.now) }
    requires fits { length (argument_of (command_text command.now)) < 32767 }
    ensures ok { OnOk result (out.new.list ≡ out.old.list ++ frame_bytes (frame_text_of (command_text command.now))) }
    ensures err { OnErr result (out.new.list ≡ out.old.list) }
{
    let number = number_of(command);
    let args = argument_of(alloc, command)?;
    put_command(number, args.as_slice(), out)
}

/// What is written is read again as the same command, whatever the home.
pub fn reads_what_is_written()
    ensures { (command : CommandText) (home : Address) → IsReadable command → command_of home (number_of command) (argument_of command) ≡ Ok command }
{}

/// Where the names have 1 to 200 bytes, the addresses are within their limits and at most 500, and a text
/// has at most 32,766 bytes, the argument fits a frame.
pub fn fits_a_frame()
    ensures { (command : CommandText) → IsShort command → length (argument_of command) < 32767 }
{}
