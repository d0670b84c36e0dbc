//! How many received files wait to be given.
ghost use Rattle.std.specs.Prelude.{◌≡◌, ℕ, List, None, count_by, map, not, true};
ghost use Rattle.file_index.specs.Sets.{Kept};
ghost use Rattle.ledger_rec.specs.Fold.{is_among};
ghost use Rattle.ledger_rec.specs.Items.{Receipt, receipt};
ghost use Rattle.node_model.specs.SendRows.{may_go};
ghost use Rattle.node_store.specs.Giving.{is_due, is_kept, number_before as before};
ghost use Rattle.node_store.specs.Opening.{counted};
ghost use Rattle.node_store.specs.Stored.{has_receipt, stand_of};

use crate::NodeStore;
use crate::opening::count;
use crate::round::is_given;
use crate::sought::is_ready;
use disk_model::Disk;
use file_index::NumberSet;
use ledger_rec::InboxItem;

// The number before that one, if any.
fn number_before(number: u32) -> Option<u32>
    ensures { result ≡ before number }
{
    if number == 0 { None } else { Some(number - 1) }
}

// Whether the file of the receipt with that number wasn't given. Where it isn't known whose files are kept, all that were given
// are walked.
fn is_kept_at(number: u32, kept: &NumberSet, given: &[u32]) -> bool
    ensures { (inbox : List Receipt) → Kept kept.now (is_kept given.now inbox) → has_receipt number inbox ≡ true → result ≡ not (is_among number given.now) }
{
    match kept.next(number_before(number)) {
        Some(Some(least)) => least == number,
        Some(None) => false,
        None => !is_given(number, given),
    }
}

// Whether its file wasn't given, and it is no request that waits for its answer.
fn waits(item: &InboxItem, kept: &NumberSet, given: &[u32]) -> bool
    ensures { (inbox : List Receipt) → Kept kept.now (is_kept given.now inbox) → has_receipt item.now.receipt inbox ≡ true → result ≡ is_due given.now (receipt item.now) }
{
    is_ready(item) && is_kept_at(item.receipt, kept, given)
}

// How many of these receipts do.
fn waiting_among(inbox: &[InboxItem], kept: &NumberSet, given: &[u32]) -> u32
    requires { Kept kept.now (is_kept given.now (map receipt inbox.now)) }
    ensures { result ≡ counted (count_by (is_due given.now) (map receipt inbox.now)) }
{
    let mut number = 0;
    for item in inbox {
        number = count(number, waits(item, kept, given));
    }
    number
}

impl<D: Disk> NodeStore<D> {
    /// How many received files aren't given yet, and are no requests that wait for their answer: those that
    /// [`NodeStore::give_next`] has still to give. It takes no memory.
    pub fn waits(&self) -> u32
        requires { self.now.memory.broken ≡ None }
        ensures { result ≡ counted (count_by may_go (stand_of D.tells D.content D.fault_count D.moment D.images self.now).state.stock.state.inbox) }
    {
        waiting_among(
            self.books.folded().inbox(),
            &self.kept,
            self.given.as_slice(),
        )
    }
}
