//! Files that were received.
ghost use Rattle.std.specs.Prelude.{◌≡◌, ◌==◌, ◌<◌, ◌&&◌, ◌∷◌, [], Some, IsSome, true, false, length, position, MatchOption, if◌then◌else◌};
ghost use Rattle.std.specs.List.{position_or_len};
ghost use Rattle.ftn_addr.specs.Address.{address};
ghost use Rattle.ftn_addr.specs.Files.{is_same};
ghost use Rattle.ftn_addr.specs.Key.{key_of};
ghost use Rattle.node_model.specs.Items.{Receipt};
ghost use Rattle.node_model.specs.Lists.{Member, first_that, some_passes};
ghost use Rattle.node_model.specs.Outside.{inbound_for};
ghost use Rattle.node_model.specs.Rows.{ends_with};
ghost use Rattle.node_model.specs.SendRows.{NextGiven, is_request, may_go};
ghost use Rattle.mem_store.specs.Least.{Least, is_above};

use crate::least::lesser;
use ftn_addr::{Addr, Bytes, FileKey, is_same_address, is_same_key, is_same_word};
use std::marker::Model;

/// A received file.
#[derive(Debug, Drop)]
pub struct Received {
    /// The number of its receipt.
    pub number: u32,
    /// The sender's first address.
    pub from: Addr,
    pub key: FileKey,
    /// As many as the key says.
    pub bytes: Bytes,
    /// Whether its session was secure.
    pub secure: bool,
    /// Whether it is a request that was answered.
    pub answered: bool,
    /// Whether it was given away.
    pub given: bool,
}

impl Model for Received {
    ghost use Rattle.std.specs.Prelude.{Some};
    ghost use Rattle.ftn_addr.specs.Address.{address};
    ghost use Rattle.ftn_addr.specs.Key.{key_of};
    ghost use Rattle.node_model.specs.Items.{Receipt};

    ghost Value = { Receipt };

    ghost view = { λ r. record { number = r.number; from = address r.from; key = key_of r.key; bytes = Some r.bytes.list; secure = r.secure; answered = r.answered; given = r.given } };
}

impl Received {
    ghost use Rattle.std.specs.Prelude.{IsTrue, option_map};

    /// Whether it wasn't given, and has as many bytes as its key says.
    pub fn is_kept(&self) -> bool
        ensures given { IsTrue result → self.now.given ≡ false }
        ensures some { IsTrue result → option_map length self.now.bytes ≡ Some self.now.key.size }
    {
        !self.given && self.bytes.len() as u64 == self.key.size
    }

    /// Whether it is a request that wasn't answered.
    pub fn is_open_request(&self) -> bool
        ensures request { IsTrue result → is_request self.now.key ≡ true }
        ensures open { IsTrue result → self.now.answered ≡ false }
    {
        !self.answered && is_request(&self.key)
    }
}

impl Received {
    /// A file that was neither answered nor given.
    pub fn new(number: u32, from: Addr, key: FileKey, bytes: Bytes, secure: bool) -> Received
        ensures { result ≡ record { number = number; from = address from; key = key_of key; bytes = Some bytes.list; secure = secure; answered = false; given = false } }
    {
        Received {
            number,
            from,
            key,
            bytes,
            secure,
            answered: false,
            given: false,
        }
    }

    /// The number of its receipt.
    pub fn number(&self) -> u32
        ensures { result ≡ self.now.number }
    {
        self.number
    }

    /// Whether its receipt has that number.
    pub fn is(&self, number: u32) -> bool
        ensures { result ≡ (self.now.number == number) }
    {
        self.number == number
    }

    /// Whether it is of that sender and key.
    pub fn is_of(&self, from: &Addr, key: &FileKey) -> bool
        ensures { result ≡ is_same (address from.now) (key_of key.now) self.now.from self.now.key }
    {
        is_same_address(from, &self.from) && is_same_key(key, &self.key)
    }

    /// Its bytes.
    pub fn content(&self) -> &[u8]
        ensures { self.now.bytes ≡ Some result.now }
    {
        self.bytes.as_slice()
    }

    /// Whether it may be given: it wasn't, and it is no request that waits for its answer.
    pub fn may_go(&self) -> bool
        ensures { result ≡ may_go self.now }
    {
        !self.given && (!is_request(&self.key) || self.answered)
    }

    // Whether it may be given, and its receipt is above that one.
    fn is_waiting(&self, above: Option<u32>) -> bool
        ensures { result ≡ (may_go self.now && is_above above self.now.number) }
    {
        self.may_go() && is_above(above, self.number)
    }

    /// The folder that it is given to.
    pub fn folder<'a>(&self, inbound: &'a Bytes, nonsecure: &'a Bytes) -> &'a Bytes
        ensures { result.now ≡ (if self.now.secure then inbound.now else nonsecure.now) }
    {
        if self.secure { inbound } else { nonsecure }
    }

    pub fn name(&self) -> &[u8]
        ensures { result.now ≡ self.now.key.name }
    {
        self.key.name.as_slice()
    }

    /// The time of its key.
    pub fn time(&self) -> u64
        ensures { result ≡ self.now.key.time }
    {
        self.key.time
    }

    /// It is answered.
    pub fn answer(&mut self)
        ensures { self.new ≡ record self.old { answered = true } }
    {
        self.answered = true;
    }

    /// It is given.
    pub fn give(&mut self)
        ensures { self.new ≡ record self.old { given = true } }
    {
        self.given = true;
    }
}

// Whether a name ends so, ASCII case ignored.
fn has_end(name: &[u8], text: &[u8]) -> bool
    ensures { result ≡ ends_with name.now text.now }
{
    text.len() <= name.len() && is_same_word(&name[name.len() - text.len()..], text)
}

fn is_request(key: &FileKey) -> bool
    ensures { result ≡ is_request (key_of key.now) }
{
    has_end(key.name.as_slice(), b".req")
}

fn is_above(above: Option<u32>, number: u32) -> bool
    ensures { result ≡ is_above above number }
{
    match above {
        Some(last) => last < number,
        None => true,
    }
}

// The least receipt above that one whose file may be given.
fn least_waiting(inbox: &[Received], above: Option<u32>) -> Option<u32>
    ensures { Least (λ (r : Receipt). may_go r && is_above above r.number) (λ (r : Receipt). r.number) inbox.now result }
{
    let mut least = None;
    for file in inbox {
        let waits = file.is_waiting(above);
        least = lesser(waits, file.number(), least);
    }
    least
}

/// The receipt of the next file that is given: the least above the last one, else the least of all.
pub fn next_given(inbox: &[Received], last: u32) -> Option<u32>
    ensures { MatchOption result ((r : Receipt) → Member r inbox.now → may_go r ≡ true → ⊥) (λ number. NextGiven number last inbox.now) }
{
    match least_waiting(inbox, Some(last)) {
        Some(number) => Some(number),
        None => least_waiting(inbox, None),
    }
}

/// Where the first receipt with that number stands, if there is one.
pub fn position_of_receipt(inbox: &[Received], number: u32) -> Option<usize>
    ensures { result ≡ position (λ (r : Receipt). r.number == number) inbox.now }
{
    inbox.iter().position(|file| file.is(number))
}

/// Where the first receipt with that number stands.
pub fn place_of_receipt(inbox: &[Received], number: u32) -> usize
    requires { IsSome (first_that (λ (r : Receipt). r.number == number) inbox.now) }
    ensures within { result < length inbox.now }
    ensures first { result ≡ position_or_len (λ (r : Receipt). r.number == number) inbox.now }
{
    position_of_receipt(inbox, number).unwrap()
}

/// Whether a file of that sender and key was received.
pub fn is_received(from: &Addr, key: &FileKey, inbox: &[Received]) -> bool
    ensures { result ≡ some_passes (λ (r : Receipt). is_same (address from.now) (key_of key.now) r.from r.key) inbox.now }
{
    inbox.iter().any(|file| file.is_of(from, key))
}
