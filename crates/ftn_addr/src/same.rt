//! Whether two addresses or two keys are the same.
ghost use Rattle.std.specs.Prelude.{◌≡◌};
ghost use Rattle.ftn_addr.specs.Address.{address, same_address};
ghost use Rattle.ftn_addr.specs.Key.{key_of, same_key};

use crate::{Addr, FileKey};

/// Whether two addresses agree in every field.
pub fn is_same_address(a: &Addr, b: &Addr) -> bool
    ensures { result ≡ same_address (address a.now) (address b.now) }
{
    a == b
}

/// Whether two keys agree in name, size and time.
pub fn is_same_key(a: &FileKey, b: &FileKey) -> bool
    ensures { result ≡ same_key (key_of a.now) (key_of b.now) }
{
    a == b
}
