//! Who a node is, and how its sessions begin.
ghost use Rattle.std.specs.Prelude.{◌≡◌, ◌<◌, ◌≤◌, ◌^◌, map, IfOk};
ghost use Rattle.binkp_args.specs.Limits.{AreAddresses};
ghost use Rattle.ftn_addr.specs.Address.{address as address_of};
ghost use Rattle.session_run.specs.Runs.{IsNew};
ghost use Rattle.session_run.specs.declared.turns.Going.TheVariants as G;

use crate::offered::address;
use ftn_addr::{Addr, Bytes, NoMemory};
use hub_core::HubConf;
use mail_conf::{Conf, Node};
use session_core::{Side, home_of};
use session_run::Course;
use std::alloc::Global;

/// The most bytes of data in a frame that is sent.
const BLOCK: u16 = 4096;

/// The most bytes that a session of the tests takes and writes, together: 16 TiB.
const SESSION_LIMIT: u64 = 17_592_186_044_416;

/// How many sessions a node answers at a time.
const MAX_SERVERS: u16 = 100;

/// When the sessions of the tests begin.
const MOMENT: u64 = 1_000_000_000;

/// What the answering sessions of the tests offer.
const CHALLENGE: [u8; 16] = [0; 16];

/// A node's settings, by which it holds its sessions.
#[derive(Drop)]
pub struct Who {
    /// Its first own address is the home.
    pub conf: Conf,
    ghost own: { AreAddresses (map address_of conf.addresses.items) },
    ghost some: { 0 < conf.block },
    ghost fits: { conf.block ≤ 32767 },
    ghost lasts: { 0 < conf.session_limit },
    ghost ends: { conf.session_limit ≤ 2 ^ 62 },
}

impl Who {
    /// A node with one address, `2:5020/NUMBER@fidonet`, that refuses nothing and has no passwords.
    pub fn new(alloc: Global, number: u16) -> Result<Box<Who>, NoMemory> {
        let addresses = one_address(alloc, number)?;
        Ok(Box::new(alloc, Who::of(alloc, addresses))?)
    }

    fn of(alloc: Global, addresses: Vec<Addr>) -> Who
        requires { AreAddresses (map address_of addresses.items) }
    {
        Who {
            conf: Conf {
                addresses,
                sysname: Bytes::new(alloc),
                sysop: Bytes::new(alloc),
                location: Bytes::new(alloc),
                nodeinfo: Bytes::new(alloc),
                domain: Bytes::new(alloc),
                base: Bytes::new(alloc),
                inbound: Bytes::new(alloc),
                inbound_nonsecure: Bytes::new(alloc),
                zone: 0,
                port: 0,
                max_servers: MAX_SERVERS,
                max_clients: 0,
                block: BLOCK,
                nodes: Vec::new(alloc),
                refuse_names: Vec::new(alloc),
                refuse_over: u64::MAX,
                shares: Vec::new(alloc),
                session_limit: SESSION_LIMIT,
            },
        }
    }

    /// Its sessions end once they have taken and written so many bytes.
    pub fn end_at(&mut self, limit: u64)
        requires some { 0 < limit }
        requires fits { limit ≤ 2 ^ 62 }
    {
        self.conf.session_limit = limit;
    }

    /// It refuses files whose names end so.
    pub fn refuse(&mut self, end: Bytes) -> Result<(), NoMemory> {
        self.conf.refuse_names.push(end)?;
        Ok(())
    }

    /// It refuses files above that size.
    pub fn refuse_over(&mut self, largest: u64) {
        self.conf.refuse_over = largest;
    }

    /// It has that password for the node of that number; an empty one is none.
    pub fn know(&mut self, alloc: Global, number: u16, password: &[u8]) -> Result<(), NoMemory> {
        let node = known(alloc, number, password)?;
        self.conf.nodes.push(node)?;
        Ok(())
    }

    /// Its first address.
    pub fn home(&self) -> &Addr {
        home_of(&self.conf)
    }

    /// The settings of a hub.
    pub fn hub_conf(&self, alloc: Global) -> Result<HubConf, NoMemory> {
        Ok(HubConf {
            max_servers: self.conf.max_servers,
            refuse_names: copies(alloc, self.conf.refuse_names.as_slice())?,
            refuse_over: self.conf.refuse_over,
        })
    }

    /// A session at that side, before its first turn.
    pub fn begin(&self, alloc: Global, side: Side) -> Result<Box<Course>, NoMemory>
        ensures new { IfOk result (λ course. IsNew course.value.run) }
        ensures going { IfOk result (λ course. course.value.going ≡ G.Starting) }
        ensures some { IfOk result (λ course. 0 < course.value.run.session.setting.limit) }
        ensures fits { IfOk result (λ course. course.value.run.session.setting.limit ≤ 2 ^ 62) }
    {
        let course = Course::new(alloc, side, &self.conf, CHALLENGE, MOMENT);
        Ok(Box::new(alloc, course)?)
    }
}

fn known(alloc: Global, number: u16, password: &[u8]) -> Result<Node, NoMemory> {
    Ok(Node {
        addr: address(alloc, number)?,
        host: Bytes::new(alloc),
        port: 24_554,
        password: Bytes::from_slice(alloc, password)?,
    })
}

fn copies(alloc: Global, names: &[Bytes]) -> Result<Vec<Bytes>, NoMemory> {
    let mut copies = Vec::new(alloc);
    for name in names {
        copies.push(name.copy(alloc)?)?;
    }
    Ok(copies)
}

// The address of the node of that number alone.
fn one_address(alloc: Global, number: u16) -> Result<Vec<Addr>, NoMemory>
    ensures { IfOk result (λ addresses. AreAddresses (map address_of addresses.items)) }
{
    let mut addresses = Vec::new(alloc);
    addresses.push(address(alloc, number)?)?;
    Ok(addresses)
}
