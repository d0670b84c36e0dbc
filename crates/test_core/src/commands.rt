//! What the peer says, by its words.
ghost use Rattle.std.specs.Prelude.{IfOk};
ghost use Rattle.binkp_args.specs.Command.{command_text};
ghost use Rattle.binkp_args.specs.Limits.{HasAddresses, HasFile};
ghost use Rattle.ftn_addr.specs.Address.{address};
ghost use Rattle.ftn_addr.specs.Limits.{IsAddress};

use anyhow::{Context, Result};
use binkp_args::{Command, read_command};
use binkp_frame::Frame;
use ftn_addr::{Addr, Bytes, NoMemory};
use std::alloc::Global;
use test_script::{behind, bytes};

/// The node that reads: 2:5020/1042@fidonet.
pub fn home(alloc: Global) -> Result<Addr, NoMemory>
    ensures { IfOk result (λ addr. IsAddress (address addr)) }
{
    Ok(Addr {
        zone: 2,
        net: 5020,
        node: 1042,
        point: 0,
        domain: Bytes::from_slice(alloc, b"fidonet")?,
    })
}

// The number of the command that a line says (FTS-1026). One without a name has its number, as `M_11`.
fn number_of(line: &str) -> Option<u8> {
    let name = match line.split_once(' ') {
        Some((name, _)) => name,
        None => line,
    };
    match name {
        "M_NUL" => Some(0),
        "M_ADR" => Some(1),
        "M_PWD" => Some(2),
        "M_FILE" => Some(3),
        "M_OK" => Some(4),
        "M_EOB" => Some(5),
        "M_GOT" => Some(6),
        "M_ERR" => Some(7),
        "M_BSY" => Some(8),
        "M_GET" => Some(9),
        "M_SKIP" => Some(10),
        _ => name.strip_prefix("M_")?.parse::<u8>().ok(),
    }
}

/// The command of a line, as the node reads it.
pub fn command_of(alloc: Global, line: &str) -> Result<Command>
    ensures file { IfOk result (λ command. HasFile (command_text command)) }
    ensures addresses { IfOk result (λ command. HasAddresses (command_text command)) }
{
    let number = number_of(line).context("a command")?;
    let args = bytes(alloc, behind(line))?;
    let home = home(alloc)?;
    Ok(read_command(alloc, number, args.as_slice(), &home)?)
}

/// The frame of a line: a command, or `data` and its bytes.
pub fn frame_of(alloc: Global, line: &str) -> Result<Frame> {
    let bytes = bytes(alloc, behind(line))?;
    if line.starts_with("data ") {
        return Ok(Frame::Data { bytes });
    }
    let number = number_of(line).context("a frame")?;
    let args = bytes;
    Ok(Frame::Command { number, args })
}
