//! The settings of the mailer, in the words of binkd's (own).
//!
//! [`read_conf`] reads a text into a [`Conf`], or gives its first bad line with the cause. A line is a
//! word and what it sets; `#` begins a comment, within quotes too. Addresses that name no zone or no
//! domain take those of the `domain` line, wherever it stands. [`Conf::node`] finds the settings of
//! another node. Whatever the text, what is read keeps the limits of addresses, and its block, session
//! limit and number of servers are of their ranges: [`what_is_read_keeps_limits`].
//!
//! ```
//! let conf = read_conf(alloc, b"domain fidonet out 2\naddress 5020/1042\niport 24554\n")?;
//! if let Some(node) = conf.node(&peer) {
//!     call(&node.host, node.port);
//! }
//! ```
//!
//! Left out: reading the file.
#![tactic(auto)]

mod cause;
mod conf;
mod domain;
mod draft;
mod host;
mod laws;
mod lines;
mod nodes;
mod reading;
mod values;
mod words;

pub use cause::{ConfCause, ConfFault};
pub use conf::{Conf, Node};
pub use laws::what_is_read_keeps_limits;
pub use reading::read_conf;
