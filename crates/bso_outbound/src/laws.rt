//! What holds of every name.
ghost use Rattle.std.specs.Prelude.{◌≡◌, ℕ, List, Option, Some};
ghost use Rattle.ftn_addr.specs.Address.{Address};
ghost use Rattle.bso_outbound.specs.Names.{outbound_name};
ghost use Rattle.bso_outbound.specs.Paths.{as_compared};
ghost use Rattle.bso_outbound.specs.Reading.{AddressOf, IsOfDomain};
ghost use Rattle.bso_outbound.specs.declared.kind.Kind.{Kind as KindOfFile};

/// Whatever the base and the default zone are, an outbound name, as names are compared, is that of one
/// address of a domain, and of one kind.
pub fn each_name_has_one_address()
    ensures { (base domain : List ℕ) (default : ℕ) (a b : Address) (j k : KindOfFile)
        → IsOfDomain domain (a, j) → IsOfDomain domain (b, k)
        → as_compared base (outbound_name a j base default) ≡ as_compared base (outbound_name b k base default)
        → (a ≡ b) × (j ≡ k) }
{}

/// What is read of an outbound name is the address and the kind that it was made of.
pub fn names_are_read_back()
    ensures { (base domain : List ℕ) (default : ℕ) (a : Address) (kind : KindOfFile) (found : Option (Address × KindOfFile))
        → IsOfDomain domain (a, kind) → AddressOf base default domain (outbound_name a kind base default) found
        → found ≡ Some (a, kind) }
{}
