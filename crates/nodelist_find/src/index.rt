//! The index of a nodelist.
ghost use Rattle.std.specs.Prelude.{◌≡◌, ◌<◌, ◌==◌, length, slice_get, Some, IfSome};
ghost use Rattle.ftn_addr.specs.Address.{address};
ghost use Rattle.nodelist_comp.specs.Views.{listed};
ghost use Rattle.ftn_addr.specs.Outcomes.{Gives};
ghost use Rattle.nodelist_find.specs.Nodes.{read_index};
ghost use Rattle.nodelist_find.specs.Route.{IsWithin, looked_up, route_of, told};

use crate::IndexFault;
use crate::nodes::read_index;
use crate::search::{found_at, place};
use ftn_addr::Addr;
use nodelist_comp::{Listed, NodeKind};
use std::alloc::Global;
use std::marker::Model;

/// How a node is reached. A place is one that [`Index::node`] takes.
#[derive(Clone, Copy, Debug, PartialEq, Eq)]
pub enum Route {
    /// By its own host.
    Direct(usize),
    /// By the host of its net, the node `zone:net/0`.
    ViaHost(usize),
    /// It is listed as down or on hold.
    Down,
    /// It isn't listed, or has no host and its net's host isn't listed.
    Unknown,
}

/// The nodes of a nodelist, rising by zone, net and node, each address once.
#[derive(Drop)]
pub struct Index {
    nodes: Vec<Listed>,
}

impl Model for Index {
    ghost use Rattle.std.specs.Prelude.{List, map};
    ghost use Rattle.nodelist_comp.specs.Node.{ListedNode};
    ghost use Rattle.nodelist_comp.specs.Views.{listed};
    ghost use Rattle.nodelist_find.specs.Rising.{Rising};

    ghost Value = { List ListedNode };

    ghost view = { λ index. map listed index.nodes.items };

    ghost invariant = { λ index. Rising (map listed index.nodes.items) };
}

impl Index {
    /// Reads the bytes of an index. Memory grows with the nodes that are there, whatever the count says.
    pub fn open(alloc: Global, bytes: &[u8]) -> Result<Index, IndexFault>
        ensures { Gives IndexFault.NoMemory (λ index. index) result (read_index bytes.now) }
    {
        let nodes = read_index(alloc, bytes)?;
        Ok(Index { nodes })
    }

    /// The number of nodes.
    pub fn len(&self) -> usize
        ensures { result ≡ length self.now }
    {
        self.nodes.len()
    }

    pub fn is_empty(&self) -> bool
        ensures { result ≡ (length self.now == 0) }
    {
        self.nodes.is_empty()
    }

    /// The node at a place.
    pub fn node(&self, i: usize) -> &Listed
        requires { i < length self.now }
        ensures { slice_get self.now i ≡ Some (listed result.now) }
    {
        &self.nodes[i]
    }

    /// Where the node of an address stands. A point is looked up as its node, whatever the domain. It
    /// halves what is left at each step, and takes no memory.
    pub fn find(&self, addr: &Addr) -> Option<usize>
        ensures place { result ≡ looked_up self.now (address addr.now) }
        ensures within { IfSome result (λ i. i < length self.now) }
    {
        found_at(self.nodes.as_slice(), place(addr.zone, addr.net, addr.node))
    }

    /// How the node of an address is reached. It takes no memory.
    #[tactic(auto, using(crate::proofs::Told::own_host))]
    pub fn route(&self, addr: &Addr) -> Route
        ensures route { result ≡ route_of self.now (address addr.now) }
        ensures within { IsWithin result (length self.now) }
    {
        let Some(i) = self.find(addr) else {
            return Route::Unknown;
        };
        let node = &self.nodes[i];
        // A node with a host of its own needs no search for that of its net.
        if node.host.is_empty() {
            let net = found_at(self.nodes.as_slice(), place(addr.zone, addr.net, 0));
            return told(i, node, net);
        }
        told(i, node, None)
    }
}

/// How the node at a place is reached, where its net's host stands at another.
fn told(i: usize, node: &Listed, net: Option<usize>) -> Route
    ensures { result ≡ told i node.now.kind node.now.host.list net }
{
    match node.kind {
        NodeKind::Down | NodeKind::Hold => Route::Down,
        NodeKind::Zone
        | NodeKind::Region
        | NodeKind::Host
        | NodeKind::Hub
        | NodeKind::Pvt
        | NodeKind::Plain => {
            if !node.host.is_empty() {
                return Route::Direct(i);
            }
            match net {
                Some(net) => Route::ViaHost(net),
                None => Route::Unknown,
            }
        }
    }
}
