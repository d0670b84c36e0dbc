//! The greeting.
ghost use Rattle.std.specs.Prelude.{◌≡◌, ◌+◌, ◌≤◌, [], ◌∷◌, ◌++◌, map, length, IfOk, OnOk};
ghost use Rattle.binkp_args.specs.Command.{Adr};
ghost use Rattle.binkp_args.specs.Limits.{AreAddresses};
ghost use Rattle.ftn_addr.specs.Address.{address};
ghost use Rattle.ftn_addr.specs.Writing.{canonical};
ghost use Rattle.mail_conf.specs.ConfView.{conf_text};
ghost use Rattle.session_auth.specs.Greeting.{announced, greeting, offer_line, setting_line, time_line, version};
ghost use Rattle.session_auth.specs.Says.{said_bytes};
ghost use Rattle.session_auth.specs.Sides.{side_of};

use crate::Side;
use crate::moment::moment_text;
use crate::passwords::cut;
use crate::saying::{say, say_text};
use binkp_args::Command;
use cram_md5::offer_text;
use ftn_addr::{Addr, Bytes, NoMemory, write_addr};
use mail_conf::Conf;
use std::alloc::Global;

/// The most bytes of an M_ADR's argument, and one.
const ROOM: usize = 32_001;

/// The last moment that is told.
const LAST_TOLD: u64 = 250_000_000_000;

/// The offer of the answering side.
fn say_offer(
    alloc: Global,
    side: &Side,
    challenge: &[u8; 16],
    out: &mut Bytes,
) -> Result<(), NoMemory>
    ensures { OnOk result (out.new.list ≡ out.old.list ++ said_bytes (offer_line (side_of side.now) challenge.now)) }
{
    match side {
        Side::Answers => {
            let mut text = Bytes::from_slice(alloc, b"OPT ")?;
            offer_text(alloc, challenge, &mut text)?;
            say_text(alloc, text, out)
        }
        Side::Calls(_) => Ok(()),
    }
}

/// A setting that is given, behind its word.
fn say_setting(alloc: Global, word: &[u8], text: &Bytes, out: &mut Bytes) -> Result<(), NoMemory>
    requires { length word.now ≤ 16 }
    ensures { OnOk result (out.new.list ≡ out.old.list ++ said_bytes (setting_line word.now text.now.list)) }
{
    if text.is_empty() {
        return Ok(());
    }
    let mut line = Bytes::from_slice(alloc, word)?;
    line.push_slice(cut(text.as_slice()))?;
    say_text(alloc, line, out)
}

/// The moment in seconds since 1970.
fn say_time(alloc: Global, now: u64, out: &mut Bytes) -> Result<(), NoMemory>
    ensures { OnOk result (out.new.list ≡ out.old.list ++ said_bytes (time_line now)) }
{
    if now > LAST_TOLD {
        return Ok(());
    }
    let mut line = Bytes::from_slice(alloc, b"TIME ")?;
    line.push_slice(moment_text(alloc, now)?.as_slice())?;
    say_text(alloc, line, out)
}

/// The length of an address's text, in bytes.
fn text_len(alloc: Global, addr: &Addr) -> Result<usize, NoMemory>
    ensures { IfOk result (λ len. len ≡ length (canonical (address addr.now))) }
{
    let mut text = Bytes::new(alloc);
    write_addr(alloc, addr, &mut text)?;
    Ok(text.len())
}

/// The own addresses that fit.
fn announced(alloc: Global, addresses: &[Addr]) -> Result<Vec<Addr>, NoMemory>
    ensures { IfOk result (λ told. map address told.items ≡ announced (map address addresses.now)) }
{
    let mut room = ROOM;
    let mut told = Vec::new(alloc);
    for addr in addresses {
        let len = text_len(alloc, addr)?;
        if len >= room {
            return Ok(told);
        }
        room -= len + 1;
        told.push(addr.copy(alloc)?)?;
    }
    Ok(told)
}

fn say_addresses(alloc: Global, addresses: &[Addr], out: &mut Bytes) -> Result<(), NoMemory>
    requires { AreAddresses (map address addresses.now) }
    ensures { OnOk result (out.new.list ≡ out.old.list ++ said_bytes (Adr (announced (map address addresses.now)) ∷ [])) }
{
    let told = announced(alloc, addresses)?;
    say(alloc, &Command::Adr(told), out)
}

fn say_version(alloc: Global, out: &mut Bytes) -> Result<(), NoMemory>
    ensures { OnOk result (out.new.list ≡ out.old.list ++ said_bytes (version ∷ [])) }
{
    let text = Bytes::from_slice(alloc, b"VER binkp_mailer/1.0 binkp/1.0")?;
    say_text(alloc, text, out)
}

/// Says all of the greeting. Where no memory is left a front of it may stand in `out`.
pub(crate) fn say_greeting(
    alloc: Global,
    side: &Side,
    conf: &Conf,
    challenge: &[u8; 16],
    now: u64,
    out: &mut Bytes,
) -> Result<(), NoMemory>
    requires { AreAddresses (map address conf.now.addresses.items) }
    ensures said { OnOk result (out.new.list ≡ out.old.list ++ said_bytes (greeting (side_of side.now) (conf_text conf.now) challenge.now now)) }
    ensures short { OnOk result (length out.new.list ≤ length out.old.list + 40000) }
{
    say_offer(alloc, side, challenge, out)?;
    say_setting(alloc, b"SYS ", &conf.sysname, out)?;
    say_setting(alloc, b"ZYZ ", &conf.sysop, out)?;
    say_setting(alloc, b"LOC ", &conf.location, out)?;
    say_setting(alloc, b"NDL ", &conf.nodeinfo, out)?;
    say_time(alloc, now, out)?;
    say_version(alloc, out)?;
    say_addresses(alloc, conf.addresses.as_slice(), out)
}
