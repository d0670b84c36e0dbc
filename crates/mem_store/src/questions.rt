//! Questions about a store: the conditions of its calls, for a caller that has to know that they are met.
ghost use Rattle.std.specs.Prelude.{◌≡◌, ◌∷◌, [], nat_lt, None, IsTrue};
ghost use Rattle.std.specs.List.{list_all};
ghost use Rattle.node_model.specs.Items.{Entry};

use crate::list_store::ListStore;
use crate::open_part::position_of_part;
use crate::outside::place_of_path;
use crate::queued::{QueuedFile, position_of_entry};
use crate::received::position_of_receipt;
use crate::staged::place_staged;
use node_model::NewFile;

impl ListStore {
    ghost use Rattle.std.specs.Prelude.{Some};
    ghost use Rattle.node_model.specs.Stores.{IsKept, IsLive, IsOpen, IsWhole};
    ghost use Rattle.node_model.specs.StoreWords.{FitsQueue, IsNewBatch, IsOpenRequest, entry_of};
    ghost use Rattle.mem_store.specs.ListStates.{stand_of};

    /// Whether a part is open, and so many bytes fit it.
    pub fn is_open(&self, part: u32, more: u64) -> bool
        ensures { IsTrue result → IsOpen part more (stand_of self.now).state }
    {
        match position_of_part(self.parts.as_slice(), part) {
            Some(place) => self.parts[place].fits(more),
            None => false,
        }
    }

    /// Whether a part is open, and has all its bytes.
    pub fn is_whole(&self, part: u32) -> bool
        ensures { IsTrue result → IsWhole part (stand_of self.now).state }
    {
        match position_of_part(self.parts.as_slice(), part) {
            Some(place) => self.parts[place].is_whole(),
            None => false,
        }
    }

    /// Whether an entry is live, with all its bytes.
    pub fn is_live(&self, number: u32) -> bool
        ensures { IsTrue result → IsLive number (stand_of self.now).state }
    {
        match position_of_entry(self.queue.as_slice(), number) {
            Some(place) => self.queue[place].is_whole(),
            None => false,
        }
    }

    /// Whether a staged file may be queued alone.
    pub fn is_batch(&self, file: &NewFile) -> bool
        requires { FitsQueue (entry_of file.now) }
        ensures { IsTrue result → IsNewBatch None None (entry_of file.now ∷ []) (stand_of self.now).state }
    {
        let Some(place) = place_staged(self.staged.as_slice(), file.number) else {
            return false;
        };
        if self.staged[place].content().len() as u64 != file.key.size {
            return false;
        }
        is_above(self.queue.as_slice(), file.number)
    }

    /// Whether a receipt is that of a request that wasn't answered.
    pub fn is_open_request(&self, number: u32) -> bool
        ensures { IsTrue result → IsOpenRequest (Some number) (stand_of self.now).state.stock.state.inbox }
    {
        match position_of_receipt(self.inbox.as_slice(), number) {
            Some(place) => self.inbox[place].is_open_request(),
            None => false,
        }
    }

    /// Whether a receipt's file wasn't given, and has all its bytes.
    pub fn is_kept(&self, number: u32) -> bool
        ensures { IsTrue result → IsKept number (stand_of self.now).state }
    {
        match position_of_receipt(self.inbox.as_slice(), number) {
            Some(place) => self.inbox[place].is_kept(),
            None => false,
        }
    }

    /// The bytes that stand under a path among the files of other programs.
    pub fn content_at(&self, path: &[u8]) -> Option<&[u8]> {
        let place = place_of_path(self.outside.as_slice(), path)?;
        let file = self.outside.get(place)?;
        Some(file.content())
    }
}

// Whether all of these have lesser numbers.
fn is_above(queue: &[QueuedFile], number: u32) -> bool
    ensures { result ≡ list_all (λ (e : Entry). nat_lt e.number number) queue.now }
{
    queue.iter().all(|entry| entry.number() < number)
}
