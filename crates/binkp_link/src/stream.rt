//! Bytes that pass by, in order.
ghost use Rattle.std.specs.Prelude.{◌≡◌, ◌≤◌, ◌++◌, [], min, length, take, drop, OnOk, OnErr};

use ftn_addr::{Bytes, NoMemory};
use std::alloc::Global;
use std::marker::Model;

/// A list of bytes that grows at its end, and the place in it up to which they have passed.
#[derive(Debug, Drop)]
pub struct Stream {
    bytes: Bytes,
    place: usize,
}

impl Model for Stream {
    ghost use Rattle.std.specs.Prelude.{◌≤◌, take, drop, length};
    ghost use Rattle.binkp_link.specs.Streams.{Passing};

    ghost Value = { Passing };

    ghost view = { λ s. record { past = take s.place s.bytes.list; ahead = drop s.place s.bytes.list } };

    ghost invariant = { λ s. s.place ≤ length s.bytes.list };
}

impl Stream {
    /// No bytes. This takes no memory.
    pub fn new(alloc: Global) -> Stream
        ensures past { result.past ≡ [] }
        ensures ahead { result.ahead ≡ [] }
    {
        Stream {
            bytes: Bytes::new(alloc),
            place: 0,
        }
    }

    /// The bytes that haven't passed yet.
    pub fn ahead(&self) -> &[u8]
        ensures { result.now ≡ self.now.ahead }
    {
        let (_, ahead) = self.bytes.as_slice().split_at(self.place);
        ahead
    }

    /// The next `n` bytes pass.
    pub fn pass(&mut self, n: usize)
        requires { n ≤ length self.old.ahead }
        ensures past { self.new.past ≡ self.old.past ++ take n self.old.ahead }
        ensures ahead { self.new.ahead ≡ drop n self.old.ahead }
    {
        prove!(n <= self.bytes.len() - self.place);
        self.place += n;
    }

    /// Copies the bytes that come next into the front of the buffer, as many as fit, and tells how many. They have
    /// passed then.
    pub fn fill(&mut self, out: &mut [u8]) -> usize
        ensures many { result ≡ min (length self.old.ahead) (length out.old) }
        ensures front { take result out.new ≡ take result self.old.ahead }
        ensures past { self.new.past ≡ self.old.past ++ take result self.old.ahead }
        ensures ahead { self.new.ahead ≡ drop result self.old.ahead }
    {
        let ahead = self.ahead();
        let n = ahead.len().min(out.len());
        out[..n].copy_from_slice(&ahead[..n]);
        self.pass(n);
        n
    }

    /// Adds bytes at the end.
    pub fn push(&mut self, bytes: &[u8]) -> Result<(), NoMemory>
        ensures past { self.new.past ≡ self.old.past }
        ensures ok { OnOk result (self.new.ahead ≡ self.old.ahead ++ bytes.now) }
        ensures err { OnErr result (self.new.ahead ≡ self.old.ahead) }
    {
        self.bytes.push_slice(bytes)
    }
}
