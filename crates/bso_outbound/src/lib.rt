//! The outbound of other FidoNet programs, in the style of BinkleyTerm (FTS-5005): what its files are
//! called.
//!
//! Each zone has a folder: the default zone's is the base, another zone's stands beside it, with the zone
//! in its name. In it a file is named by net and node, and the files of a point stand in a folder of
//! their node. How a name ends says what the file is, a [`Kind`]; [`ending_of`] spells it.
//!
//! [`name_of`] gives the path of an address and a kind, [`addr_of`] is its inverse. Names are compared
//! with ASCII case ignored; the folder above the base is the sysop's path, compared byte for byte. The
//! pieces serve who lists folders: [`folder_above`] and [`last_part`] say where the folders of zones
//! stand, [`zone_of`] which zone such a folder is for, [`point_folder_of`] whose points a folder is for.
//!
//! ```
//! let base = Bytes::from_slice(alloc, b"/ftn/outbound")?;
//! let name = name_of(alloc, &addr, Kind::Flow(Flavour::Crash), &base, 2)?;
//! // for 2:5020/1042.7 this is /ftn/outbound/139c0412.pnt/00000007.clo
//! let (folder, file) = (b"/ftn/outbound.02e", b"139C0412.FLO");
//! let found = addr_of(alloc, folder, file, &home, &base, 2)?; // 46:5020/1042, a normal flow file
//! ```
//!
//! Left out: listing folders and reading files, the names of taken files in the own folder
//! (`node_store`), and marks.
#![tactic(auto)]

mod base;
mod digits;
mod kind;
mod laws;
mod naming;
mod reading;
mod slash;
mod spot;
mod zone;

pub use base::{folder_above, last_part};
pub use digits::node_of;
pub use kind::{Kind, ending_of};
pub use laws::{each_name_has_one_address, names_are_read_back};
pub use naming::{name_of, zone_folder};
pub use reading::addr_of;
pub use spot::point_folder_of;
pub use zone::zone_of;
