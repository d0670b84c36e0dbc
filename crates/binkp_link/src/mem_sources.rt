//! A clock and dice in memory, which give the items of a list.
ghost use Rattle.std.specs.Prelude.{◌≡◌, ◌<◌, Some, length};
ghost use Rattle.binkp_link.specs.Repeats.{after_item, first_item};

use crate::{Clock, Dice};
use std::marker::Model;

/// A list that isn't empty, and the place of the item that comes next.
#[derive(Debug, Drop)]
struct Repeats<T> {
    items: Vec<T>,
    place: usize,
}

impl<T> Model for Repeats<T> {
    ghost use Rattle.std.specs.Prelude.{◌<◌, List, drop, length};

    ghost Value = { List T };

    ghost view = { λ r. drop r.place r.items.items };

    ghost invariant = { λ r. r.place < length r.items.items };
}

impl<T: Copy> Repeats<T> {
    fn new(items: Vec<T>) -> Repeats<T>
        requires { 0 < length items.items }
        ensures { result ≡ items.items }
    {
        Repeats { items, place: 0 }
    }

    /// The next item, and at the end the last one again.
    fn next(&mut self) -> T
        ensures gives { Some result ≡ first_item self.old }
        ensures left { self.new ≡ after_item self.old }
    {
        let item = self.items[self.place];
        if self.items.len() - self.place > 1 {
            self.place += 1;
        }
        item
    }
}

/// A clock that gives the moments of a list in order, and then the last one again.
#[derive(Debug, Drop)]
pub struct MemClock {
    moments: Repeats<u64>,
}

impl MemClock {
    /// A clock of these moments. This takes no memory.
    pub fn new(moments: Vec<u64>) -> MemClock
        requires { 0 < length moments.items }
        ensures { result.moments ≡ moments.items }
    {
        MemClock {
            moments: Repeats::new(moments),
        }
    }
}

impl Clock for MemClock {
    fn now(&mut self) -> u64
        ensures gives { Some result ≡ first_item self.old.moments }
        ensures left { self.new.moments ≡ after_item self.old.moments }
    {
        self.moments.next()
    }
}

/// Dice that give the items of a list in order, and then the last one again.
#[derive(Debug, Drop)]
pub struct MemDice {
    items: Repeats<[u8; 16]>,
}

impl MemDice {
    /// Dice of these items. This takes no memory.
    pub fn new(items: Vec<[u8; 16]>) -> MemDice
        requires { 0 < length items.items }
        ensures { result.items ≡ items.items }
    {
        MemDice {
            items: Repeats::new(items),
        }
    }
}

impl Dice for MemDice {
    fn sixteen(&mut self) -> [u8; 16]
        ensures gives { Some result ≡ first_item self.old.items }
        ensures left { self.new.items ≡ after_item self.old.items }
    {
        self.items.next()
    }
}
