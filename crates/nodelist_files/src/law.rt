//! What is compiled can be looked up.
ghost use Rattle.std.specs.Prelude.{◌≡◌, ℕ, List, map, Ok, Some};
ghost use Rattle.nodelist_comp.specs.Index.{in_order, index_of};
ghost use Rattle.nodelist_comp.specs.List.{compiled};
ghost use Rattle.nodelist_comp.specs.Node.{ListedNode};
ghost use Rattle.nodelist_find.specs.Law.{clipped};
ghost use Rattle.nodelist_files.specs.IndexFile.{index_at};

/// The index that compiling leaves is read as the text's nodes in order, with a host of more than 255 bytes as empty. It is never
/// a bad one.
pub fn what_is_compiled_is_read()
    ensures { (text : List ℕ) (nodes : List ListedNode) → compiled text ≡ Ok nodes
        → index_at (Some (index_of nodes)) ≡ Ok (Some (map clipped (in_order nodes))) }
{}
