//! Files that were refused.
ghost use Rattle.std.specs.Prelude.{◌≡◌, IfOk};
ghost use Rattle.ftn_addr.specs.Address.{address};
ghost use Rattle.ftn_addr.specs.Files.{is_same};
ghost use Rattle.ftn_addr.specs.Key.{key_of};
ghost use Rattle.node_model.specs.Items.{Refusal};
ghost use Rattle.node_model.specs.Lists.{some_passes};

use ftn_addr::{Addr, FileKey, NoMemory, is_same_address, is_same_key};
use std::alloc::Global;
use std::marker::Model;

/// A sender and key that were refused.
#[derive(Debug, Drop)]
pub struct RefusedFile {
    /// The sender's first address.
    pub from: Addr,
    pub key: FileKey,
}

impl Model for RefusedFile {
    ghost use Rattle.ftn_addr.specs.Address.{address};
    ghost use Rattle.ftn_addr.specs.Key.{key_of};
    ghost use Rattle.node_model.specs.Items.{Refusal};

    ghost Value = { Refusal };

    ghost view = { λ r. record { from = address r.from; key = key_of r.key } };
}

impl RefusedFile {
    pub fn new(alloc: Global, from: &Addr, key: &FileKey) -> Result<RefusedFile, NoMemory>
        ensures { IfOk result (λ file. file ≡ record { from = address from.now; key = key_of key.now }) }
    {
        Ok(RefusedFile {
            from: from.copy(alloc)?,
            key: key.copy(alloc)?,
        })
    }

    /// Whether it is of that sender and key.
    pub fn is_of(&self, from: &Addr, key: &FileKey) -> bool
        ensures { result ≡ is_same (address from.now) (key_of key.now) self.now.from self.now.key }
    {
        is_same_address(from, &self.from) && is_same_key(key, &self.key)
    }
}

/// Whether a file of that sender and key was refused.
pub fn is_refused(from: &Addr, key: &FileKey, refused: &[RefusedFile]) -> bool
    ensures { result ≡ some_passes (λ (r : Refusal). is_same (address from.now) (key_of key.now) r.from r.key) refused.now }
{
    refused.iter().any(|file| file.is_of(from, key))
}
