//! Where a node that is called is reached.
ghost use Rattle.std.specs.Prelude.{◌≡◌, IfOk, is_some, option_map};
ghost use Rattle.ftn_addr.specs.Address.{address};
ghost use Rattle.mail_conf.specs.ConfView.{conf_text};
ghost use Rattle.call_hosts.specs.Hosts.{host_at, host_text, listed_host, set_host};

use ftn_addr::{Addr, Bytes, NoMemory};
use mail_conf::Conf;
use nodelist_files::direct_node;
use nodelist_find::Index;
use std::alloc::Global;

/// A host, by its name or its IP address, and a TCP port of it.
#[derive(Debug, Drop)]
pub struct Host {
    pub name: Bytes,
    pub port: u16,
}

/// The host that the settings have for a node.
///
/// # Errors
/// Want of memory.
pub fn set_host(alloc: Global, conf: &Conf, peer: &Addr) -> Result<Option<Host>, NoMemory>
    ensures { IfOk result (λ host. option_map host_text host ≡ set_host (conf_text conf.now) (address peer.now)) }
{
    let Some(node) = conf.node(peer) else {
        return Ok(None);
    };
    if node.host.is_empty() {
        return Ok(None);
    }
    Ok(Some(Host {
        name: node.host.copy(alloc)?,
        port: node.port,
    }))
}

/// The host that an index has for a node.
///
/// # Errors
/// Want of memory.
pub fn listed_host(
    alloc: Global,
    index: &Option<Index>,
    peer: &Addr,
) -> Result<Option<Host>, NoMemory>
    ensures { IfOk result (λ host. option_map host_text host ≡ listed_host index.now (address peer.now)) }
{
    let Some(index) = index else {
        return Ok(None);
    };
    let Some(node) = direct_node(index, peer) else {
        return Ok(None);
    };
    Ok(Some(Host {
        name: node.host.copy(alloc)?,
        port: node.port,
    }))
}

/// The host of a node: that of the settings, else that of an index.
///
/// # Errors
/// Want of memory.
pub fn host_of(
    alloc: Global,
    conf: &Conf,
    index: &Option<Index>,
    peer: &Addr,
) -> Result<Option<Host>, NoMemory>
    ensures { IfOk result (λ host. option_map host_text host ≡ host_at (conf_text conf.now) index.now (address peer.now)) }
{
    match set_host(alloc, conf, peer)? {
        Some(host) => Ok(Some(host)),
        None => listed_host(alloc, index, peer),
    }
}

fn is_set(conf: &Conf, peer: &Addr) -> bool
    ensures { result ≡ is_some (set_host (conf_text conf.now) (address peer.now)) }
{
    match conf.node(peer) {
        Some(node) => !node.host.is_empty(),
        None => false,
    }
}

fn is_listed(index: &Option<Index>, peer: &Addr) -> bool
    ensures { result ≡ is_some (listed_host index.now (address peer.now)) }
{
    match index {
        Some(index) => direct_node(index, peer).is_some(),
        None => false,
    }
}

/// Whether the settings or an index have a host for a node. It takes no memory.
pub fn has_host(conf: &Conf, index: &Option<Index>, peer: &Addr) -> bool
    ensures { result ≡ is_some (host_at (conf_text conf.now) index.now (address peer.now)) }
{
    is_set(conf, peer) || is_listed(index, peer)
}
