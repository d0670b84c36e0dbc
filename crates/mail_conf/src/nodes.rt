//! The nodes of the lines so far.
ghost use Rattle.std.specs.Prelude.{◌≡◌, [], ◌∷◌, ◌++◌, map, IfOk};
ghost use Rattle.std.specs.List.{list_any};
ghost use Rattle.ftn_addr.specs.Address.{address, same_address};
ghost use Rattle.mail_conf.specs.Views.{node_text};

use crate::Node;
use ftn_addr::{Addr, NoMemory};
use std::alloc::Global;
use std::collections::BTreeSet;
use std::marker::Model;

/// Nodes in the order of their lines, with their addresses in an order of their own, so that a second
/// line of an address is found without a look at each.
#[derive(Drop)]
pub(crate) struct NodeList {
    list: Vec<Node>,
    known: BTreeSet<Addr>,
}

impl Model for NodeList {
    ghost use Rattle.std.specs.Prelude.{List, map};
    ghost use Rattle.mail_conf.specs.Host.{NodeText};
    ghost use Rattle.mail_conf.specs.Known.{Tracks};
    ghost use Rattle.mail_conf.specs.Views.{node_text};

    ghost Value = { List NodeText };

    ghost view = { λ nodes. map node_text nodes.list.items };

    ghost invariant = { λ nodes. Tracks (map node_text nodes.list.items) nodes.known.keys };
}

impl NodeList {
    pub fn new(alloc: Global) -> NodeList
        ensures { result ≡ [] }
    {
        NodeList {
            list: Vec::new(alloc),
            known: BTreeSet::new(alloc),
        }
    }

    /// Whether a node has the address.
    pub fn has(&self, addr: &Addr) -> bool
        ensures { result ≡ list_any (λ node. same_address (address addr.now) node.addr) self.now }
    {
        self.known.contains(addr)
    }

    /// The nodes with one more at the end.
    pub fn with(self, alloc: Global, node: Node) -> Result<NodeList, NoMemory>
        ensures { IfOk result (λ nodes. nodes ≡ self ++ node_text node ∷ []) }
    {
        let NodeList {
            mut list,
            mut known,
        } = self;
        known.insert(node.addr.copy(alloc)?)?;
        list.push(node)?;
        Ok(NodeList { list, known })
    }

    pub fn into_nodes(self) -> Vec<Node>
        ensures { map node_text result.items ≡ self }
    {
        let NodeList { list, known } = self;
        drop(known);
        list
    }
}
