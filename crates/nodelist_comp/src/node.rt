//! The nodes of a nodelist.
ghost use Rattle.std.specs.Prelude.{◌≡◌};

use ftn_addr::Bytes;

/// What a line of a nodelist stands for (FTS-5000).
#[derive(Clone, Copy, Debug, PartialEq, Eq)]
pub enum NodeKind {
    Zone,
    Region,
    Host,
    Hub,
    Pvt,
    Hold,
    Down,
    /// A line with an empty keyword.
    Plain,
}

/// A node of a nodelist.
#[derive(Debug, Drop)]
pub struct Listed {
    pub zone: u16,
    pub net: u16,
    pub node: u16,
    pub kind: NodeKind,
    /// Where it answers binkp; empty where it doesn't, or where no host is named.
    pub host: Bytes,
    /// The TCP port.
    pub port: u16,
}

impl Listed {
    ghost use Rattle.nodelist_comp.specs.Node.{place_of};
    ghost use Rattle.nodelist_comp.specs.Views.{listed};

    /// A number that is the address, and rises as addresses do.
    pub fn place(&self) -> u64
        ensures { result ≡ place_of (listed self.now) }
    {
        let (zone, net, node) = (self.zone, self.net, self.node);
        u64::from(zone) * 0x1_0000_0000 + u64::from(net) * 0x1_0000 + u64::from(node)
    }
}
