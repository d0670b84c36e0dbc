//! A hub over a store in memory that many seats share: what tests have behind a gate.
//!
//! A [`RoundDesk`] is the desk of such a hub, which goes from seat to seat ([`Roams`](shared_desk::Roams)). How the seats see the hub
//! stands in `specs/Sights.antt`.
//!
//! ```
//! let desk = RoundDesk { desk: HubDesk { hub, seat } };
//! let Ok((gate, passes)) = Gate::new(alloc, desk, 2) else { .. };
//! ```
//!
//! Left out: gates and passes, and what the seats do.
#![tactic(auto)]

mod round_desk;

pub use round_desk::RoundDesk;
