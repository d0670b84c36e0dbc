//! Where a node that is called is reached.
//!
//! [`set_host`] is the host that the settings have for a node, [`listed_host`] the one that the index of the nodelist has, and
//! [`host_of`] the first of these two that there is. Whether there is one says [`has_host`], which takes no memory.
//!
//! ```
//! if let Some(host) = host_of(alloc, &conf, &index, &peer)? {
//!     lines.dial(&host.name, host.port);
//! }
//! ```
//!
//! Left out: the settings (`mail_conf`), the index (`nodelist_files`), and the addresses of a host's name (`real_edge`).
#![tactic(auto)]

mod hosts;

pub use hosts::{Host, has_host, host_of, listed_host, set_host};
