//! Settings as far as their lines were taken.
ghost use Rattle.std.specs.Prelude.{◌≡◌, map};
ghost use Rattle.ftn_addr.specs.Address.{address};
ghost use Rattle.ftn_addr.specs.Outcomes.{Gives, GivesExactly};
ghost use Rattle.mail_conf.specs.Draft.{addresses_from, empty_draft, list_taken, number_taken, path_taken, text_taken};
ghost use Rattle.mail_conf.specs.Drafted.{drafted};

use crate::ConfCause;
use crate::domain::{DomainLine, address_at, domain_line, is_alias};
use crate::host::node_line;
use crate::nodes::NodeList;
use crate::values::{number_once, text_of, word_at, word_once};
use crate::words::{ListWord, NumberWord, PathWord, TextWord};
use ftn_addr::{Addr, Bytes};
use std::alloc::Global;
use std::mem;

/// Settings as far as their lines were taken.
#[derive(Drop)]
pub(crate) struct Draft {
    pub addresses: Vec<Addr>,
    pub sysname: Option<Bytes>,
    pub sysop: Option<Bytes>,
    pub location: Option<Bytes>,
    pub nodeinfo: Option<Bytes>,
    pub domain: Option<DomainLine>,
    pub inbound: Option<Bytes>,
    pub inbound_nonsecure: Option<Bytes>,
    pub port: Option<u16>,
    pub max_servers: Option<u16>,
    pub max_clients: Option<u16>,
    pub block: Option<u16>,
    pub refuse_over: Option<u64>,
    pub session_limit: Option<u64>,
    pub nodes: NodeList,
    pub refuse_names: Vec<Bytes>,
    pub shares: Vec<Bytes>,
}

/// Settings without a line.
pub(crate) fn empty_draft(alloc: Global) -> Draft
    ensures { drafted result ≡ empty_draft }
{
    Draft {
        addresses: Vec::new(alloc),
        sysname: None,
        sysop: None,
        location: None,
        nodeinfo: None,
        domain: None,
        inbound: None,
        inbound_nonsecure: None,
        port: None,
        max_servers: None,
        max_clients: None,
        block: None,
        refuse_over: None,
        session_limit: None,
        nodes: NodeList::new(alloc),
        refuse_names: Vec::new(alloc),
        shares: Vec::new(alloc),
    }
}

/// Takes a line that sets a text.
#[tactic(auto, unfolding(crate::specs::Draft::text_taken))]
pub(crate) fn take_text(
    alloc: Global,
    draft: &mut Draft,
    word: TextWord,
    rest: &[u8],
) -> Result<(), ConfCause>
    ensures { Gives ConfCause.NoMemory (λ _. drafted draft.new) result (text_taken word rest.now (drafted draft.old)) }
{
    match word {
        TextWord::Sysname => {
            draft.sysname = Some(text_of(alloc, draft.sysname.is_some(), rest)?);
        }
        TextWord::Sysop => draft.sysop = Some(text_of(alloc, draft.sysop.is_some(), rest)?),
        TextWord::Location => {
            draft.location = Some(text_of(alloc, draft.location.is_some(), rest)?);
        }
        TextWord::Nodeinfo => {
            draft.nodeinfo = Some(text_of(alloc, draft.nodeinfo.is_some(), rest)?);
        }
    }
    Ok(())
}

/// Takes a line that sets a folder.
#[tactic(auto, unfolding(crate::specs::Draft::path_taken))]
pub(crate) fn take_path(
    alloc: Global,
    draft: &mut Draft,
    word: PathWord,
    words: &[&[u8]],
) -> Result<(), ConfCause>
    ensures { Gives ConfCause.NoMemory (λ _. drafted draft.new) result
        (path_taken word (map (λ word. word.now) words.now) (drafted draft.old)) }
{
    match word {
        PathWord::Inbound => {
            draft.inbound = Some(word_once(alloc, draft.inbound.is_some(), words)?);
        }
        PathWord::InboundNonsecure => {
            let given = draft.inbound_nonsecure.is_some();
            draft.inbound_nonsecure = Some(word_once(alloc, given, words)?);
        }
    }
    Ok(())
}

/// Takes a line that sets a number.
#[tactic(auto, unfolding(crate::specs::Draft::number_taken))]
pub(crate) fn take_number(
    draft: &mut Draft,
    word: NumberWord,
    words: &[&[u8]],
) -> Result<(), ConfCause>
    ensures { GivesExactly (λ _. drafted draft.new) result
        (number_taken word (map (λ word. word.now) words.now) (drafted draft.old)) }
{
    match word {
        NumberWord::Port => {
            let port = number_once(draft.port.is_some(), words, 1, 65_535)?;
            draft.port = Some(port as u16);
        }
        NumberWord::MaxServers => {
            let servers = number_once(draft.max_servers.is_some(), words, 1, 100)?;
            draft.max_servers = Some(servers as u16);
        }
        NumberWord::MaxClients => {
            let clients = number_once(draft.max_clients.is_some(), words, 0, 100)?;
            draft.max_clients = Some(clients as u16);
        }
        NumberWord::Block => {
            let block = number_once(draft.block.is_some(), words, 128, 32_767)?;
            draft.block = Some(block as u16);
        }
        NumberWord::RefuseOver => {
            let given = draft.refuse_over.is_some();
            draft.refuse_over = Some(number_once(given, words, 0, 9_223_372_036_854_775_807)?);
        }
        NumberWord::SessionLimit => {
            let given = draft.session_limit.is_some();
            draft.session_limit = Some(number_once(given, words, 1, 17_592_186_044_416)?);
        }
    }
    Ok(())
}

/// Adds the addresses of the words.
fn push_addresses(
    alloc: Global,
    home: &Addr,
    words: &[&[u8]],
    addresses: &mut Vec<Addr>,
) -> Result<(), ConfCause>
    ensures { Gives ConfCause.NoMemory (λ _. map address addresses.new.items) result
        (addresses_from (address home.now) (map address addresses.old.items) (map (λ word. word.now) words.now)) }
{
    for word in words {
        addresses.push(address_at(alloc, home, *word)?)?;
    }
    Ok(())
}

/// Takes a line whose word may come again.
#[tactic(auto, unfolding(crate::specs::Draft::list_taken))]
pub(crate) fn take_list(
    alloc: Global,
    home: &Addr,
    draft: &mut Draft,
    word: ListWord,
    words: &[&[u8]],
) -> Result<(), ConfCause>
    ensures { Gives ConfCause.NoMemory (λ _. drafted draft.new) result
        (list_taken word (address home.now) (map (λ word. word.now) words.now) (drafted draft.old)) }
{
    match word {
        ListWord::Domain => {
            if is_alias(words) {
                word_at(words, 2)?;
            } else {
                draft.domain = Some(domain_line(alloc, draft.domain.is_some(), words)?);
            }
        }
        ListWord::Address => {
            word_at(words, 0)?;
            push_addresses(alloc, home, words, &mut draft.addresses)?;
        }
        ListWord::Node => {
            let node = node_line(alloc, home, &draft.nodes, words)?;
            let nodes = mem::replace(&mut draft.nodes, NodeList::new(alloc));
            draft.nodes = nodes.with(alloc, node)?;
        }
        ListWord::RefuseName => {
            let name = word_once(alloc, false, words)?;
            draft.refuse_names.push(name)?;
        }
        ListWord::RequestFolder => {
            let share = word_once(alloc, false, words)?;
            draft.shares.push(share)?;
        }
    }
    Ok(())
}
