//! Search by halves.
ghost use Rattle.std.specs.Prelude.{◌≡◌, ◌<◌, length, map, IfSome};
ghost use Rattle.nodelist_comp.specs.Node.{place};
ghost use Rattle.nodelist_comp.specs.Views.{listed};
ghost use Rattle.nodelist_find.specs.Rising.{Rising};
ghost use Rattle.nodelist_find.specs.Route.{found_at};

use nodelist_comp::Listed;

/// The number of an address, which rises as addresses do.
pub(crate) fn place(zone: u16, net: u16, node: u16) -> u64
    ensures { result ≡ place zone net node }
{
    u64::from(zone) * 0x1_0000_0000 + u64::from(net) * 0x1_0000 + u64::from(node)
}

/// Where the node with this address stands among rising ones.
pub(crate) fn found_at(nodes: &[Listed], place: u64) -> Option<usize>
    requires { Rising (map listed nodes.now) }
    ensures place { result ≡ found_at (map listed nodes.now) place }
    ensures within { IfSome result (λ i. i < length nodes.now) }
{
    let mut low = 0;
    let mut high = nodes.len();
    while low < high {
        let middle = low + (high - low) / 2;
        let here = nodes[middle].place();
        if here == place {
            return Some(middle);
        }
        if here < place {
            low = middle + 1;
        } else {
            high = middle;
        }
    }
    None
}
