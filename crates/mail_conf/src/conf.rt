//! The settings.
ghost use Rattle.std.specs.Prelude.{◌≡◌, find, map, option_map};
ghost use Rattle.ftn_addr.specs.Address.{address, same_address};
ghost use Rattle.mail_conf.specs.Views.{node_text};

use ftn_addr::{Addr, Bytes, is_same_address};

/// The settings of another node.
#[derive(Debug, Drop)]
pub struct Node {
    pub addr: Addr,
    /// Empty where none is set.
    pub host: Bytes,
    /// The TCP port.
    pub port: u16,
    /// Empty where none is set.
    pub password: Bytes,
}

/// The settings of the mailer.
#[derive(Debug, Drop)]
pub struct Conf {
    /// The own addresses, one at least; the first is the home.
    pub addresses: Vec<Addr>,
    /// Empty where none is set, as `sysop`, `location` and `nodeinfo`.
    pub sysname: Bytes,
    pub sysop: Bytes,
    pub location: Bytes,
    pub nodeinfo: Bytes,
    /// The domain of addresses that name none.
    pub domain: Bytes,
    /// The folder of the outbound.
    pub base: Bytes,
    /// The folder of files from secure sessions.
    pub inbound: Bytes,
    /// The folder of files from other sessions.
    pub inbound_nonsecure: Bytes,
    /// The zone of addresses that name none.
    pub zone: u16,
    /// The own TCP port.
    pub port: u16,
    pub max_servers: u16,
    pub max_clients: u16,
    /// The most bytes of a data frame.
    pub block: u16,
    pub nodes: Vec<Node>,
    /// Ends of names that are refused.
    pub refuse_names: Vec<Bytes>,
    /// The greatest size that isn't refused, in bytes; the greatest `u64` where none is.
    pub refuse_over: u64,
    /// Folders of files that may be requested.
    pub shares: Vec<Bytes>,
    pub session_limit: u64,
}

fn node_in<'a>(nodes: &'a [Node], addr: &Addr) -> Option<&'a Node>
    ensures { option_map (λ node. node_text node.now) result
        ≡ find (λ node. same_address node.addr (address addr.now)) (map node_text nodes.now) }
{
    for node in nodes {
        if is_same_address(&node.addr, addr) {
            return Some(node);
        }
    }
    None
}

impl Conf {
    /// The settings of a node. It takes no memory.
    pub fn node(&self, addr: &Addr) -> Option<&Node>
        ensures { option_map (λ node. node_text node.now) result
            ≡ find (λ node. same_address node.addr (address addr.now)) (map node_text self.now.nodes.items) }
    {
        node_in(self.nodes.as_slice(), addr)
    }
}
