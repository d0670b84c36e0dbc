//! Which received files are looked for.
ghost use Rattle.std.specs.Prelude.{◌≡◌};
ghost use Rattle.ledger_rec.specs.Items.{receipt};
ghost use Rattle.node_store.specs.Giving.{is_ready};
ghost use Rattle.node_store.specs.Seeking.{is_sought};

use ftn_addr::{Addr, is_same_address};
use ledger_rec::{InboxItem, is_request};

/// Which received files are looked for.
#[derive(Clone, Copy)]
pub(crate) enum Sought<'a> {
    /// Those that may be given: what is no request, or was answered.
    ToGive,
    /// The requests of that sender that weren't answered.
    RequestsOf(&'a Addr),
}

/// Whether it is no request, or was answered.
pub(crate) fn is_ready(item: &InboxItem) -> bool
    ensures { result ≡ is_ready (receipt item.now) }
{
    !is_request(item.key.name.as_slice()) || item.answered
}

/// Whether it is one of those that are looked for.
pub(crate) fn is_sought(sought: Sought<'_>, item: &InboxItem) -> bool
    ensures { result ≡ is_sought sought.entry (receipt item.now) }
{
    match sought {
        Sought::ToGive => is_ready(item),
        Sought::RequestsOf(from) => {
            is_same_address(from, &item.from)
                && (is_request(item.key.name.as_slice()) && !item.answered)
        }
    }
}
