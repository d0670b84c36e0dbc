//! Who a node of a trial is, and how its sessions begin.
ghost use Rattle.std.specs.Prelude.{◌≡◌, ◌<◌, ◌≤◌, ◌^◌, map, IfOk};
ghost use Rattle.binkp_args.specs.Limits.{AreAddresses};
ghost use Rattle.ftn_addr.specs.Address.{address as address_of};
ghost use Rattle.ftn_addr.specs.Limits.{IsAddress};
ghost use Rattle.session_run.specs.Runs.{IsNew};
ghost use Rattle.session_run.specs.declared.turns.Going.TheVariants as G;

use ftn_addr::{Addr, Bytes, NoMemory};
use hub_core::HubConf;
use mail_conf::{Conf, Node};
use session_core::{Side, home_of};
use session_run::Course;
use std::alloc::Global;

/// The most bytes of data in a frame that is sent.
const BLOCK: u16 = 4096;

/// The most bytes that a session takes and writes, together: 16 TiB.
const SESSION_LIMIT: u64 = 17_592_186_044_416;

const MAX_SERVERS: u16 = 100;

const PORT: u16 = 24_554;

/// When each session begins.
const MOMENT: u64 = 1_000_000_000;

/// What each answering session offers.
const CHALLENGE: [u8; 16] = [0; 16];

/// A node's settings, by which it holds its sessions, and the other node's address.
#[derive(Drop)]
pub struct Who {
    pub(crate) conf: Conf,
    peer: Addr,
    ghost own: { AreAddresses (map address_of conf.addresses.items) },
    ghost some: { 0 < conf.block },
    ghost fits: { conf.block ≤ 32767 },
    ghost lasts: { 0 < conf.session_limit },
    ghost ends: { conf.session_limit ≤ 2 ^ 62 },
    ghost within: { IsAddress (address_of peer) },
}

/// The address `1:1/NODE@fidonet`.
fn address(alloc: Global, node: u16) -> Result<Addr, NoMemory>
    requires { node ≤ 32767 }
    ensures { IfOk result (λ addr. IsAddress (address_of addr)) }
{
    Ok(Addr {
        zone: 1,
        net: 1,
        node,
        point: 0,
        domain: Bytes::from_slice(alloc, b"fidonet")?,
    })
}

// One address alone.
fn one_address(alloc: Global, node: u16) -> Result<Vec<Addr>, NoMemory>
    requires { node ≤ 32767 }
    ensures { IfOk result (λ addresses. AreAddresses (map address_of addresses.items)) }
{
    let mut addresses = Vec::new(alloc);
    addresses.push(address(alloc, node)?)?;
    Ok(addresses)
}

// One other node, without a password.
fn one_node(alloc: Global, node: u16) -> Result<Vec<Node>, NoMemory>
    requires { node ≤ 32767 }
{
    let mut nodes = Vec::new(alloc);
    nodes.push(Node {
        addr: address(alloc, node)?,
        host: Bytes::new(alloc),
        port: PORT,
        password: Bytes::new(alloc),
    })?;
    Ok(nodes)
}

impl Who {
    /// The node `1:1/NUMBER@fidonet`, which knows `1:1/OTHER@fidonet` and refuses nothing.
    pub(crate) fn new(alloc: Global, number: u16, other: u16) -> Result<Box<Who>, NoMemory>
        requires number { number ≤ 32767 }
        requires other { other ≤ 32767 }
    {
        let addresses = one_address(alloc, number)?;
        let nodes = one_node(alloc, other)?;
        let peer = address(alloc, other)?;
        Ok(Box::new(alloc, Who::of(alloc, addresses, nodes, peer))?)
    }

    fn of(alloc: Global, addresses: Vec<Addr>, nodes: Vec<Node>, peer: Addr) -> Who
        requires own { AreAddresses (map address_of addresses.items) }
        requires within { IsAddress (address_of peer) }
    {
        Who {
            conf: Conf {
                addresses,
                sysname: Bytes::new(alloc),
                sysop: Bytes::new(alloc),
                location: Bytes::new(alloc),
                nodeinfo: Bytes::new(alloc),
                domain: Bytes::new(alloc),
                base: Bytes::new(alloc),
                inbound: Bytes::new(alloc),
                inbound_nonsecure: Bytes::new(alloc),
                zone: 1,
                port: PORT,
                max_servers: MAX_SERVERS,
                max_clients: 0,
                block: BLOCK,
                nodes,
                refuse_names: Vec::new(alloc),
                refuse_over: u64::MAX,
                shares: Vec::new(alloc),
                session_limit: SESSION_LIMIT,
            },
            peer,
        }
    }

    pub(crate) fn home(&self) -> &Addr {
        home_of(&self.conf)
    }

    /// The other node's address.
    pub(crate) fn peer(&self, alloc: Global) -> Result<Addr, NoMemory>
        ensures { IfOk result (λ peer. IsAddress (address_of peer)) }
    {
        self.peer.copy(alloc)
    }

    /// The settings of a hub.
    pub(crate) fn hub_conf(&self, alloc: Global) -> HubConf {
        HubConf {
            max_servers: self.conf.max_servers,
            refuse_names: Vec::new(alloc),
            refuse_over: self.conf.refuse_over,
        }
    }

    /// A session at that side, before its first turn.
    pub(crate) fn begin(&self, alloc: Global, side: Side) -> Result<Box<Course>, NoMemory>
        ensures new { IfOk result (λ course. IsNew course.value.run) }
        ensures going { IfOk result (λ course. course.value.going ≡ G.Starting) }
        ensures some { IfOk result (λ course. 0 < course.value.run.session.setting.limit) }
        ensures fits { IfOk result (λ course. course.value.run.session.setting.limit ≤ 2 ^ 62) }
    {
        let course = Course::new(alloc, side, &self.conf, CHALLENGE, MOMENT);
        Ok(Box::new(alloc, course)?)
    }
}
