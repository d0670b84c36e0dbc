//! The settings of a text.
ghost use Rattle.std.specs.Prelude.{◌≡◌, codes, map, option_map, unwrap_or, IfOk};
ghost use Rattle.ftn_addr.specs.Address.{address};
ghost use Rattle.std.specs.Str.Lines.{lines};
ghost use Rattle.mail_conf.specs.Cause.{GivesAt};
ghost use Rattle.mail_conf.specs.Conf.{conf_of, finished, first_zone, settings_of, with_lines};
ghost use Rattle.mail_conf.specs.ConfView.{conf_text};
ghost use Rattle.mail_conf.specs.Draft.{empty_draft};
ghost use Rattle.mail_conf.specs.Drafted.{drafted, text_in};
ghost use Rattle.mail_conf.specs.Views.{domain_text};

use crate::domain::{DomainLine, home_of};
use crate::draft::{Draft, empty_draft};
use crate::lines::take_line;
use crate::{Conf, ConfCause, ConfFault};
use ftn_addr::{Addr, Bytes, NoMemory, first_line};
use std::alloc::Global;

/// The longest settings, in bytes.
const MAX_TEXT: usize = 1_048_576;

/// The fault of the settings as a whole.
fn whole(cause: ConfCause) -> ConfFault
    ensures { result ≡ record { line = 0; cause = cause } }
{
    ConfFault { line: 0, cause }
}

/// Takes the lines of a text.
fn take_lines(alloc: Global, home: &Addr, text: &[u8]) -> Result<Draft, ConfFault>
    ensures { GivesAt drafted result (with_lines (address home.now) empty_draft 0 (lines text.now)) }
{
    let mut draft = empty_draft(alloc);
    let mut number = 0u32;
    let mut rest = text;
    while let Some((line, after)) = first_line(rest) {
        number = number.saturating_add(1);
        if let Err(cause) = take_line(alloc, home, &mut draft, line) {
            return Err(ConfFault {
                line: number,
                cause,
            });
        }
        rest = after;
    }
    Ok(draft)
}

fn text_or(alloc: Global, text: Option<Bytes>, missing: &[u8]) -> Result<Bytes, NoMemory>
    ensures { IfOk result (λ given. given.list ≡ unwrap_or (text_in text) missing.now) }
{
    match text {
        Some(text) => Ok(text),
        None => Bytes::from_slice(alloc, missing),
    }
}

/// The domain, the outbound's folder and the zone, where no line sets them from the first address.
fn domain_or(alloc: Global, domain: Option<DomainLine>, zone: u16) -> Result<DomainLine, NoMemory>
    ensures { IfOk result (λ line. domain_text line
        ≡ unwrap_or (option_map domain_text domain) (record { name = codes "fidonet"; base = codes "outbound"; zone = zone })) }
{
    match domain {
        Some(line) => Ok(line),
        None => Ok(DomainLine {
            name: Bytes::from_slice(alloc, b"fidonet")?,
            base: Bytes::from_slice(alloc, b"outbound")?,
            zone,
        }),
    }
}

fn first_zone(addresses: &[Addr]) -> Option<u16>
    ensures { result ≡ first_zone (map address addresses.now) }
{
    let first = addresses.first()?;
    Some(first.zone)
}

/// The settings of a draft with these own addresses and this domain: what was set, and defaults.
fn settings_of(alloc: Global, line: DomainLine, draft: Draft) -> Result<Conf, NoMemory>
    ensures { IfOk result (λ conf. conf_text conf ≡ settings_of (domain_text line) (drafted draft)) }
{
    let inbound = text_or(alloc, draft.inbound, b"inbound")?;
    let inbound_nonsecure = text_or(alloc, draft.inbound_nonsecure, inbound.as_slice())?;
    Ok(Conf {
        addresses: draft.addresses,
        sysname: text_or(alloc, draft.sysname, &[])?,
        sysop: text_or(alloc, draft.sysop, &[])?,
        location: text_or(alloc, draft.location, &[])?,
        nodeinfo: text_or(alloc, draft.nodeinfo, &[])?,
        domain: line.name,
        base: line.base,
        inbound,
        inbound_nonsecure,
        zone: line.zone,
        port: draft.port.unwrap_or(24_554),
        max_servers: draft.max_servers.unwrap_or(100),
        max_clients: draft.max_clients.unwrap_or(100),
        block: draft.block.unwrap_or(4_096),
        nodes: draft.nodes.into_nodes(),
        refuse_names: draft.refuse_names,
        refuse_over: draft.refuse_over.unwrap_or(u64::MAX),
        shares: draft.shares,
        session_limit: draft.session_limit.unwrap_or(17_592_186_044_416),
    })
}

#[tactic(auto, unfolding(crate::specs::Conf::finished))]
fn finish(alloc: Global, draft: Draft) -> Result<Conf, ConfFault>
    ensures { GivesAt conf_text result (finished (drafted draft)) }
{
    let Some(zone) = first_zone(draft.addresses.as_slice()) else {
        return Err(whole(ConfCause::NoAddress));
    };
    let mut draft = draft;
    match domain_or(alloc, draft.domain.take(), zone) {
        Ok(line) => match settings_of(alloc, line, draft) {
            Ok(conf) => Ok(conf),
            Err(NoMemory) => Err(whole(ConfCause::NoMemory)),
        },
        Err(NoMemory) => Err(whole(ConfCause::NoMemory)),
    }
}

/// The settings of a text, or its first bad line with the cause.
///
/// Within a line a missing word is told before a word that is set twice, and that before the words from
/// the left. Line 0 is told for a text of more than 1,048,576 bytes, and where all lines are good and no
/// address is set.
pub fn read_conf(alloc: Global, text: &[u8]) -> Result<Conf, ConfFault>
    ensures { GivesAt conf_text result (conf_of text.now) }
{
    if text.len() > MAX_TEXT {
        return Err(whole(ConfCause::TooLong));
    }
    match home_of(alloc, text) {
        Ok(home) => {
            let draft = take_lines(alloc, &home, text)?;
            finish(alloc, draft)
        }
        Err(NoMemory) => Err(whole(ConfCause::NoMemory)),
    }
}
