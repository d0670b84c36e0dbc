ghost use Rattle.std.specs.Prelude.{◌≡◌, ℕ, ◌+◌, ◌-◌, ◌≤◌, [], ◌++◌, map, length, take, drop, nat_eq, IfOk, OnOk, OnErr, IsOk};
ghost use Rattle.std.specs.Fmt.{decimal};
ghost use Rattle.std.specs.Char.{to_ascii_lowercase};

use crate::NoMemory;
use std::alloc::Global;
use std::cmp::Ordering;
use std::marker::Model;

/// A list of bytes, with room for some more.
#[derive(Debug, Drop)]
pub struct Bytes {
    items: Vec<u8>,
}

impl Model for Bytes {
    ghost use Rattle.std.specs.Prelude.{◌-◌, vec_len, vec_capacity};
    ghost use Rattle.ftn_addr.specs.Content.{Content};

    ghost Value = { Content };

    ghost view = { λ b. record { list = b.items.items; spare = vec_capacity b.items - vec_len b.items } };
}

impl PartialEq for Bytes {
    ghost use Rattle.std.proofs.Common.{rules};
    ghost use Rattle.std.specs.Prelude.{nat_eq};
    ghost use Rattle.std.specs.Ordering.{on};
    ghost use Rattle.std.specs.Cmp.Lexicographic.{pointwise};
    ghost use Rattle.std.specs.Cmp.Rules.{comparing};

    ghost eq = { on (λ b. b.list) (pointwise nat_eq) };

    ghost laws = { Prim.search (comparing, rules) };

    fn eq(&self, other: &Bytes) -> bool {
        self.as_slice() == other.as_slice()
    }
}

impl Eq for Bytes {
    ghost use Rattle.std.proofs.Common.{rules};
    ghost use Rattle.std.specs.Cmp.Rules.{comparing};

    ghost laws = { Prim.search (comparing, rules) };
}

impl PartialOrd for Bytes {
    ghost use Rattle.std.proofs.Common.{rules};
    ghost use Rattle.std.specs.Ordering.{on, as_partial_cmp, nat_cmp};
    ghost use Rattle.std.specs.Cmp.{partial_order_from_own_ties};
    ghost use Rattle.std.specs.Cmp.Lexicographic.{slice_cmp};
    ghost use Rattle.std.specs.Cmp.Rules.{comparing};

    ghost partial_cmp = { as_partial_cmp (on (λ b. b.list) (slice_cmp nat_cmp)) };

    ghost laws = { partial_order_from_own_ties (Prim.search (comparing, rules)) (Prim.search (comparing, rules)) };

    fn partial_cmp(&self, other: &Bytes) -> Option<Ordering> {
        Some(self.cmp(other))
    }
}

impl Ord for Bytes {
    ghost use Rattle.std.proofs.Common.{rules};
    ghost use Rattle.std.specs.Ordering.{on, nat_cmp};
    ghost use Rattle.std.specs.Cmp.Lexicographic.{slice_cmp};
    ghost use Rattle.std.specs.Cmp.Rules.{comparing};

    ghost cmp = { on (λ b. b.list) (slice_cmp nat_cmp) };

    ghost total = { Prim.search (comparing, rules) };

    ghost matches_partial_cmp = { Prim.search (comparing, rules) };

    ghost matches_eq = { Prim.search (comparing, rules) };

    fn cmp(&self, other: &Bytes) -> Ordering {
        self.as_slice().cmp(other.as_slice())
    }
}

impl Bytes {
    /// An empty list, which takes no memory.
    pub fn new(alloc: Global) -> Bytes
        ensures { result.list ≡ [] }
    {
        Bytes {
            items: Vec::new(alloc),
        }
    }

    /// A list of these bytes.
    pub fn from_slice(alloc: Global, bytes: &[u8]) -> Result<Bytes, NoMemory>
        ensures { IfOk result (λ list. list.list ≡ bytes.now) }
    {
        let items = Vec::from_slice(alloc, bytes)?;
        Ok(Bytes { items })
    }

    /// The bytes with the upper case letters of ASCII as lower case.
    pub fn lower_case(alloc: Global, bytes: &[u8]) -> Result<Bytes, NoMemory>
        ensures { IfOk result (λ list. list.list ≡ map to_ascii_lowercase bytes.now) }
    {
        let items = bytes
            .iter()
            .map(|byte| byte.to_ascii_lowercase())
            .collect(alloc)?;
        Ok(Bytes { items })
    }

    pub fn as_slice(&self) -> &[u8]
        ensures { result.now ≡ self.now.list }
    {
        self.items.as_slice()
    }

    /// The number of bytes.
    pub fn len(&self) -> usize
        ensures { result ≡ length self.now.list }
    {
        self.items.len()
    }

    pub fn is_empty(&self) -> bool
        ensures { result ≡ nat_eq (length self.now.list) 0 }
    {
        self.items.is_empty()
    }

    /// Adds the bytes at the end. With enough room this takes no memory.
    pub fn push_slice(&mut self, bytes: &[u8]) -> Result<(), NoMemory>
        ensures ok { OnOk result (self.new.list ≡ self.old.list ++ bytes.now) }
        ensures err { OnErr result (self.new.list ≡ self.old.list) }
        ensures within { length bytes.now ≤ self.old.spare → IsOk result }
        ensures room { self.old.spare ≤ self.new.spare + length bytes.now }
    {
        self.items.extend_from_slice(bytes)?;
        Ok(())
    }

    /// Adds the decimal digits of a number at the end.
    pub fn push_number(&mut self, alloc: Global, number: u64) -> Result<(), NoMemory>
        ensures ok { OnOk result (self.new.list ≡ self.old.list ++ decimal number) }
        ensures err { OnErr result (self.new.list ≡ self.old.list) }
    {
        let digits = format!(in alloc; "{number}")?;
        self.push_slice(digits.as_bytes())
    }

    /// Makes room for `n` more bytes.
    pub fn reserve(&mut self, n: usize) -> Result<(), NoMemory>
        ensures same { self.new.list ≡ self.old.list }
        ensures ok { OnOk result (n ≤ self.new.spare) }
        ensures within { n ≤ self.old.spare → IsOk result }
        ensures room { self.old.spare ≤ self.new.spare }
    {
        self.items.reserve(n)?;
        Ok(())
    }

    /// Drops all but the first `n` bytes, where there are more, and keeps their room.
    pub fn truncate(&mut self, n: usize)
        ensures front { self.new.list ≡ take n self.old.list }
        ensures room { self.old.spare + (length self.old.list - n) ≤ self.new.spare }
    {
        self.items.truncate(n);
    }

    /// Removes the first `n` bytes.
    pub fn drop_front(&mut self, n: usize)
        requires { n ≤ length self.old.list }
        ensures { self.new.list ≡ drop n self.old.list }
    {
        self.items.drain(..n);
    }

    /// Empties the list and keeps its room. It takes no memory.
    pub fn clear(&mut self)
        ensures empty { self.new.list ≡ [] }
        ensures room { self.old.spare + length self.old.list ≤ self.new.spare }
    {
        self.items.clear();
    }

    pub fn copy(&self, alloc: Global) -> Result<Bytes, NoMemory>
        ensures { IfOk result (λ list. list.list ≡ self.now.list) }
    {
        Bytes::from_slice(alloc, self.as_slice())
    }
}
