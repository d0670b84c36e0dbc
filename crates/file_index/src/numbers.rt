//! Where numbers stand in a list of numbers.
ghost use Rattle.std.specs.Prelude.{◌≡◌, ◌≤◌, ℕ, Bool, true, false, List, [], ◌∷◌, ◌++◌, length, take, IfSome, IsSome};
ghost use Rattle.std.specs.List.{list_any};
ghost use Rattle.file_index.specs.Numbered.{is_among, Numbers};

use std::alloc::Global;
use std::collections::BTreeMap;

/// Where each number of a list stands first.
#[derive(Debug, Drop)]
pub struct NumberIndex {
    places: BTreeMap<u32, usize>,
    whole: bool,
}

impl NumberIndex {
    /// The index of an empty list, which takes no memory.
    pub fn new(alloc: Global) -> NumberIndex
        ensures { Numbers result [] }
    {
        NumberIndex {
            places: BTreeMap::new(alloc),
            whole: true,
        }
    }

    /// Whether the number stands in the list; none where the index isn't whole.
    pub fn find(&self, number: u32) -> Option<bool>
        ensures { (numbers : List ℕ) → Numbers self.now numbers → IfSome result (λ found. found ≡ is_among number numbers) }
    {
        if self.whole {
            Some(self.places.contains_key(&number))
        } else {
            None
        }
    }

    /// A place in the list, before which the number doesn't stand.
    pub fn start(&self, number: u32, len: usize) -> usize
        ensures low { result ≤ len }
        ensures none { (numbers : List ℕ) → len ≡ length numbers → Numbers self.now numbers → is_among number (take result numbers) ≡ false }
    {
        if !self.whole {
            return 0;
        }
        match self.places.get(&number) {
            Some(place) => (*place).min(len),
            None => len,
        }
    }

    /// Notes the number that now stands last, at that place. Where there is no memory for it, the index
    /// isn't whole any more.
    pub fn note(&mut self, number: u32, place: usize)
        ensures { (numbers : List ℕ) → place ≡ length numbers → Numbers self.old numbers → Numbers self.new (numbers ++ number ∷ []) }
    {
        if !self.whole {
            return;
        }
        if self.places.contains_key(&number) {
            return;
        }
        match self.places.insert(number, place) {
            Ok(_) => (),
            Err(_) => self.whole = false,
        }
    }
}
