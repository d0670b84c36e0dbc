//! The seats of a hub, and what their sessions hold.
ghost use Rattle.std.specs.Option.{ForSome};
ghost use Rattle.hub_core.specs.Skips.{HasRoom};

use crate::skips::Skips;
use ftn_addr::{Addr, Bytes, FileKey};
use node_model::{LivePlace, Role};

/// The file that a session holds: its part in the store, how many bytes of it came, and the places that it has left.
#[derive(Drop)]
pub struct Taken {
    pub part: u32,
    pub key: FileKey,
    pub have: u64,
    /// Whether data is taken.
    pub taking: bool,
    pub places: u32,
    /// Over a broken store the session was told that it holds this no more. The node of such a store doesn't change.
    pub dropped: bool,
}

/// The entry that a session has claimed, with its key.
#[derive(Drop)]
pub struct Claimed {
    pub number: u32,
    pub key: FileKey,
}

/// What a session offers: the entry that it has claimed, and those that it doesn't offer again, with room for the claimed
/// one.
#[derive(Drop)]
pub struct Offers {
    pub claim: Option<Claimed>,
    pub skips: Skips,
    /// Its search goes on behind this place: what is queued for its peer up to there is skipped or settled.
    pub passed: Option<LivePlace>,
    ghost room: { ForSome claim (λ c. HasRoom c.number skips.noted skips.list) },
}

/// An open session.
#[derive(Drop)]
pub struct Open {
    pub number: u32,
    pub role: Role,
    /// The peer's first address, the sender of its files.
    pub first: Addr,
    pub others: Vec<Addr>,
    pub secure: bool,
    /// When it began, in seconds since the start of 1970.
    pub moment: u64,
    pub offers: Offers,
    pub hold: Option<Taken>,
    /// The keys that were once not offered from the place that was asked for, the last one first.
    pub missed: Vec<FileKey>,
}

/// A seat: how often its calls answered Busy and Read, and its open session.
#[derive(Drop)]
pub struct Place {
    pub busy: u64,
    pub reads: u64,
    pub session: Option<Open>,
}

/// The settings of a hub.
#[derive(Drop)]
pub struct HubConf {
    /// How many answering sessions may be open.
    pub max_servers: u16,
    /// Files whose names end so are refused, ASCII case ignored.
    pub refuse_names: Vec<Bytes>,
    /// Files above this size are refused.
    pub refuse_over: u64,
}

/// What a hub has beside its store: its settings, the seats that were given, and how many sessions began.
#[derive(Drop)]
pub struct Seats {
    pub conf: HubConf,
    pub places: Vec<Place>,
    pub begun: u32,
}
