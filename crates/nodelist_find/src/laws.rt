//! What holds of every list of nodes and its index.
ghost use Rattle.std.specs.Prelude.{◌≡◌, ◌≤◌, ◌==◌, ℕ, List, length, map, find, Ok};
ghost use Rattle.std.specs.List.{AllByRecursion};
ghost use Rattle.nodelist_comp.specs.Index.{in_order, index_of};
ghost use Rattle.nodelist_comp.specs.Node.{ListedNode, place_of};
ghost use Rattle.nodelist_find.specs.Law.{IsIndex, IsListed, clipped};
ghost use Rattle.nodelist_find.specs.Nodes.{read_index};

/// In the order of the index an address has the node that it has in the list, the first of its lines.
pub fn finds_what_the_list_has()
    ensures { (nodes : List ListedNode) (at : ℕ) → find (λ n. place_of n == at) (in_order nodes)
        ≡ find (λ n. place_of n == at) nodes }
{}

/// The index of a list, whose addresses are at most 65,536, is read as these nodes in its order,
/// with a host of more than 255 bytes as empty.
pub fn reads_what_is_written()
    ensures { (nodes : List ListedNode) → AllByRecursion IsListed nodes → length (in_order nodes) ≤ 65536
        → read_index (index_of nodes) ≡ Ok (map clipped (in_order nodes)) }
{}

/// What is read as an index is one: the index of these nodes, in their order.
pub fn what_is_read_is_an_index()
    ensures { (bytes : List ℕ) (nodes : List ListedNode) → read_index bytes ≡ Ok nodes → IsIndex bytes nodes }
{}
