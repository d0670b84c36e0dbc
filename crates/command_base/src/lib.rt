//! What every command of the program shares: its statuses and their lines, the settings of the disk, and the printing of what
//! came of it.
//!
//! [`Status`] is what came of a command: its number is the exit status, and [`push_status`] writes its line. The statuses of what
//! refuses one stand beside it: of a session's end ([`status_of`]), of settings ([`status_unset`]), of a store that isn't opened
//! ([`status_unopened`]), of a nodelist ([`status_uncompiled`]) and of its index ([`status_unindexed`]). [`read_settings`] reads
//! the disk's own file `binkp.conf`. [`print_lines`] puts the lines of a command and that of its status.
//!
//! ```
//! match read_settings(alloc, &mut disk) {
//!     Ok(conf) => { .. }
//!     Err(fault) => { print_lines(alloc, Ok(Bytes::new(alloc)), status_unset(fault, disk.faults()), &mut out); }
//! }
//! ```
//!
//! `specs/Opening.antt` says what a command knows of an opening of its store.
//!
//! Left out: the commands (`still_commands`, `binkp_mailer`), and the words (`command_words`).
#![tactic(auto)]

mod printing;
mod settings;
mod status;

pub use printing::print_lines;
pub use settings::{SettingsFault, read_settings};
pub use status::{
    Status, push_status, status_of, status_uncompiled, status_unindexed, status_unopened,
    status_unset,
};
