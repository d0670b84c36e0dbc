//! Commands, read of their arguments and written as frames.
ghost use Rattle.std.specs.Prelude.{IsTrue, IfOk};
ghost use Rattle.ftn_addr.specs.Address.{address};
ghost use Rattle.ftn_addr.specs.Limits.{IsAddress};
ghost use Rattle.binkp_args.specs.Command.{command_text};
ghost use Rattle.binkp_args.specs.Limits.{HasAddresses, HasFile, IsShort};
ghost use Rattle.binkp_args.specs.Writing.{IsKnown};

use crate::commands::home;
use anyhow::{Result, bail};
use binkp_args::{Command, fits_a_frame, read_command, write_command};
use ftn_addr::{Addr, Bytes, FileKey, MAX_FRAME_DATA, NoMemory, write_addr};
use std::alloc::Global;
use test_script::shown;

/// The most addresses of an M_ADR that is written here.
const MAX_ADDRESSES: usize = 500;

fn quoted(alloc: Global, name: &str, text: &Bytes) -> Result<String> {
    let text = shown(alloc, text.as_slice())?;
    Ok(format!(in alloc; "{name} \"{text}\"")?)
}

fn file(alloc: Global, name: &str, key: &FileKey) -> Result<String> {
    let (file, size, time) = (shown(alloc, key.name.as_slice())?, key.size, key.time);
    Ok(format!(in alloc; "{name} {file} {size} {time}")?)
}

fn placed(alloc: Global, name: &str, key: &FileKey, offset: u64) -> Result<String> {
    let file = file(alloc, name, key)?;
    Ok(format!(in alloc; "{file} {offset}")?)
}

fn addresses(alloc: Global, addrs: &[Addr]) -> Result<String> {
    let mut text = Bytes::new(alloc);
    for addr in addrs {
        text.push_slice(b" ")?;
        write_addr(alloc, addr, &mut text)?;
    }
    let text = shown(alloc, text.as_slice())?;
    Ok(format!(in alloc; "Adr{text}")?)
}

fn said(alloc: Global, command: &Command) -> Result<String> {
    match command {
        Command::Nul(text) => quoted(alloc, "Nul", text),
        Command::Adr(addrs) => addresses(alloc, addrs.as_slice()),
        Command::Pwd(text) => quoted(alloc, "Pwd", text),
        Command::File(key, offset) => placed(alloc, "File", key, *offset),
        Command::Accept(text) => quoted(alloc, "Accept", text),
        Command::Eob => Ok(String::from_str(alloc, "Eob")?),
        Command::Got(key) => file(alloc, "Got", key),
        Command::Err(text) => quoted(alloc, "Err", text),
        Command::Bsy(text) => quoted(alloc, "Bsy", text),
        Command::Get(key, offset) => placed(alloc, "Get", key, *offset),
        Command::Skip(key) => file(alloc, "Skip", key),
        Command::Other(number) => Ok(format!(in alloc; "Other {number}")?),
    }
}

/// The command of that number and argument, or its fault.
pub fn read(alloc: Global, number: u8, args: &Bytes) -> Result<String> {
    let home = home(alloc)?;
    match read_command(alloc, number, args.as_slice(), &home) {
        Ok(command) => said(alloc, &command),
        Err(fault) => Ok(format!(in alloc; "{fault:?}")?),
    }
}

// Whether a command that was read can be written.
fn is_short(command: &Command) -> bool
    requires file { HasFile (command_text command.now) }
    requires addresses { HasAddresses (command_text command.now) }
    ensures known { IsTrue result → IsKnown (command_text command.now) }
    ensures short { IsTrue result → IsShort (command_text command.now) }
{
    match command {
        Command::Nul(text)
        | Command::Pwd(text)
        | Command::Accept(text)
        | Command::Err(text)
        | Command::Bsy(text) => text.len() < MAX_FRAME_DATA,
        Command::Adr(addrs) => !addrs.is_empty() && addrs.len() <= MAX_ADDRESSES,
        Command::File(_, _)
        | Command::Eob
        | Command::Got(_)
        | Command::Get(_, _)
        | Command::Skip(_) => true,
        Command::Other(_) => false,
    }
}

/// Writes the command of that number and argument, behind what was written.
pub fn write(alloc: Global, number: u8, args: &Bytes, written: &mut Bytes) -> Result<()> {
    let home = home(alloc)?;
    let command = read_command(alloc, number, args.as_slice(), &home)?;
    if !is_short(&command) {
        bail!("no command that is written");
    }
    fits_a_frame();
    write_command(alloc, &command, written)?;
    Ok(())
}
