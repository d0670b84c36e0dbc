//! What a session asks of its node: one call is one step of the node.
ghost use Rattle.std.specs.Prelude.{◌≡◌, ◌≤◌, ◌<◌, ◌-◌, Bool, true, false, None, Some, IfOk, length, map, min};
ghost use Rattle.ftn_addr.specs.Address.{address};
ghost use Rattle.ftn_addr.specs.Key.{key_of};
ghost use Rattle.ftn_addr.specs.Limits.{IsAddress, IsKey};
ghost use Rattle.std.specs.List.{All};
ghost use Rattle.node_model.specs.Calls.{Knock_call, Open_call, Offer_call, Read_call, Got_call, Skip_call, File_call, Data_call, Leave_call, Settled};
ghost use Rattle.node_model.specs.Images.{Stand, Kept};
ghost use Rattle.node_model.specs.Desks.{Claim, DataExact, DeskPart, HasClaim, PartTold, Fits, part_after, number_in, size_in, knock_answer, begin_answer, offer_answer, read_answer, file_answer, data_answer, settled_answer};

use crate::Role;
use ftn_addr::{Addr, FileKey};
use std::alloc::Global;
use thiserror::Error;

/// Why a desk refused.
#[derive(Clone, Copy, Debug, PartialEq, Eq, Error)]
pub enum DeskFault {
    /// The node's store is broken with that count of faults.
    #[error("the disk failed (count {0})")]
    Disk(u64),
    /// A read failed: the store's count of faults rose to that number, and nothing changed.
    #[error("a read failed (count {0})")]
    Read(u64),
    #[error("the ledger is full")]
    Full,
    #[error("out of memory")]
    NoMemory,
}

/// What becomes of a caller.
#[derive(Clone, Copy, Debug, PartialEq, Eq)]
pub enum Knock {
    Come,
    /// As many answering sessions are open as the settings allow.
    Busy,
}

/// What the peer is offered.
#[derive(Debug, Drop)]
pub enum Offer {
    /// The queued file of that number, with its key.
    File(u32, FileKey),
    Nothing,
}

/// What becomes of a file that the peer offers.
#[derive(Clone, Copy, Debug, PartialEq, Eq)]
pub enum FileIn {
    /// Its data is taken, and this session holds it.
    Go,
    /// Nothing of it is to come, and its receipt was recorded.
    Whole,
    /// It was received or refused before.
    Have,
    /// The settings refuse it, and that was recorded.
    Refuse,
    /// Another session holds it.
    Elsewhere,
    /// It is to be offered from that place, behind what came of it before; this session holds it, and no data is taken.
    From(u64),
    /// A second time it wasn't offered from the place that was asked for.
    Late,
}

/// What becomes of data.
#[derive(Clone, Copy, Debug, PartialEq, Eq)]
pub enum DataIn {
    /// More of the file is to come.
    More,
    /// The file is whole, and its receipt was recorded.
    Whole,
}

/// A seat at a node.
pub trait Desk {
    /// Whether no other seat steps between two calls.
    ghost alone: { Bool };

    /// Its state, the moment, and what a stop may leave.
    ghost stand: { Self → Stand };

    /// Whether a session is open, and the file that it holds.
    ghost part: { Self → DeskPart };

    /// What holds of every desk between two calls.
    ghost ready: { Self → Type 0 };

    /// What desks of this type say of each call, beside that.
    ghost rule: { Self → Self → Type 0 };

    /// A caller comes, or this side calls.
    fn knock(&mut self, role: Role) -> Result<Knock, DeskFault>
        requires { ready self.old }
        ensures made { Kept alone (stand self.old) (Knock_call role) (knock_answer result) (stand self.new) }
        ensures part { part self.new ≡ part_after (part self.old) (Knock_call role) (knock_answer result) }
        ensures ready { ready self.new }
        ensures rule { rule self.old self.new };

    /// Opens a session with a peer that has these addresses, and answers its number.
    fn begin(
        &mut self,
        alloc: Global,
        role: Role,
        peers: &[Addr],
        secure: bool,
        now: u64,
    ) -> Result<u32, DeskFault>
        requires ready { ready self.old }
        requires none_yet { (part self.old).open_now ≡ false }
        requires some { 0 < length peers.now }
        requires limits { All IsAddress (map address peers.now) }
        ensures made { Kept alone (stand self.old) (Open_call role (map address peers.now) secure now) (begin_answer result) (stand self.new) }
        ensures part { part self.new ≡ part_after (part self.old) (Open_call role (map address peers.now) secure now) (begin_answer result) }
        ensures ready { ready self.new }
        ensures rule { rule self.old self.new };

    /// Claims the next queued file for one of the peers, the first by flavour and then by number, which no session has
    /// claimed and this one hasn't skipped.
    fn offer(&mut self, alloc: Global) -> Result<Offer, DeskFault>
        requires ready { ready self.old }
        requires in_session { (part self.old).open_now ≡ true }
        requires free { (part self.old).claim ≡ None }
        ensures made { Kept alone (stand self.old) Offer_call (offer_answer result) (stand self.new) }
        ensures part { part self.new ≡ part_after (part self.old) Offer_call (offer_answer result) }
        ensures limits { (c : Claim) → (part self.new).claim ≡ Some c → IsKey c.key }
        ensures ready { ready self.new }
        ensures rule { rule self.old self.new };

    /// Reads the claimed file from a place on, as many bytes as fit. It takes no memory.
    fn read(&mut self, at: u64, out: &mut [u8]) -> Result<usize, DeskFault>
        requires ready { ready self.old }
        requires in_session { (part self.old).open_now ≡ true }
        requires claimed { HasClaim (part self.old) }
        ensures made { Kept alone (stand self.old) (Read_call at (length out.old)) (read_answer out.new result) (stand self.new) }
        ensures length { IfOk result (λ count. count ≡ min (length out.old) (size_in (part self.old).claim - at)) }
        ensures part { part self.new ≡ part self.old }
        ensures ready { ready self.new }
        ensures rule { rule self.old self.new };

    /// The peer has the claimed file: it is settled. It takes no memory.
    fn got(&mut self) -> Result<(), DeskFault>
        requires ready { ready self.old }
        requires in_session { (part self.old).open_now ≡ true }
        requires claimed { HasClaim (part self.old) }
        ensures made { Kept alone (stand self.old) (Got_call (number_in (part self.old).claim)) (settled_answer result) (stand self.new) }
        ensures part { part self.new ≡ part_after (part self.old) (Got_call (number_in (part self.old).claim)) (settled_answer result) }
        ensures ready { ready self.new }
        ensures rule { rule self.old self.new };

    /// The peer doesn't want the claimed file now: this session offers it no more. It takes no memory, and works over a
    /// broken store too.
    fn skip(&mut self)
        requires ready { ready self.old }
        requires in_session { (part self.old).open_now ≡ true }
        requires claimed { HasClaim (part self.old) }
        ensures made { Kept alone (stand self.old) (Skip_call (number_in (part self.old).claim)) Settled (stand self.new) }
        ensures part { part self.new ≡ part_after (part self.old) (Skip_call (number_in (part self.old).claim)) Settled }
        ensures ready { ready self.new }
        ensures rule { rule self.old self.new };

    /// The peer offers a file from that offset. What was held before is marked, and isn't held any more.
    fn file_in(&mut self, alloc: Global, key: &FileKey, offset: u64) -> Result<FileIn, DeskFault>
        requires ready { ready self.old }
        requires in_session { (part self.old).open_now ≡ true }
        requires limits { IsKey (key_of key.now) }
        ensures made { Kept alone (stand self.old) (File_call (key_of key.now) offset) (file_answer result) (stand self.new) }
        ensures part { part self.new ≡ part_after (part self.old) (File_call (key_of key.now) offset) (file_answer result) }
        ensures ready { ready self.new }
        ensures rule { rule self.old self.new };

    /// Data of the held file comes. It takes no memory.
    fn data_in(&mut self, bytes: &[u8]) -> Result<DataIn, DeskFault>
        requires ready { ready self.old }
        requires fits { Fits (part self.old) (length bytes.now) }
        ensures made { Kept alone (stand self.old) (Data_call bytes.now) (data_answer result) (stand self.new) }
        ensures part { part self.new ≡ part_after (part self.old) (Data_call bytes.now) (data_answer result) }
        ensures exact { DataExact (part self.old).held (length bytes.now) (data_answer result) }
        ensures ready { ready self.new }
        ensures rule { rule self.old self.new };

    /// Ends the session, where one is open. It takes no memory.
    fn leave(&mut self) -> Result<(), DeskFault>
        requires { ready self.old }
        ensures made { Kept alone (stand self.old) Leave_call (settled_answer result) (stand self.new) }
        ensures part { part self.new ≡ part_after (part self.old) Leave_call (settled_answer result) }
        ensures ready { ready self.new }
        ensures rule { rule self.old self.new };

    /// Where it tells its node, and that isn't broken, its part is that of the seat's session.
    ghost tied: { (d : Self) → ready d → PartTold (part d) (stand d).state.seat (stand d).state.knows };
}
