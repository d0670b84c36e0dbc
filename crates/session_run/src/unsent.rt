//! What is left to write.
ghost use Rattle.std.specs.Prelude.{◌≡◌, ◌+◌, ◌-◌, ◌^◌, ◌<◌, ◌≤◌, [], drop, length, min, nat_eq};
ghost use Rattle.binkp_args.specs.Limits.{AreAddresses};
ghost use Rattle.binkp_frame.specs.Views.{frame_text};
ghost use Rattle.mail_conf.specs.ConfView.{conf_text};
ghost use Rattle.node_model.specs.Desks.{fault_of};
ghost use Rattle.session_auth.specs.Greeting.{greeting};
ghost use Rattle.session_auth.specs.Says.{said_bytes};
ghost use Rattle.session_core.specs.Ends as E;
ghost use Rattle.session_core.specs.Givings as G;
ghost use Rattle.session_core.specs.Givings.{gave_text};
ghost use Rattle.session_core.specs.Replies.{Keeps, MadeRow, MadeTurn, Sits, SitsOn, SitsStill, Writes, lent_in, setting_in, stage_in, told_of};
ghost use Rattle.session_core.specs.Says.{fault_bytes, too_many};
ghost use Rattle.session_core.specs.Sessions.{GiveRow, Row, fault_end};
ghost use Rattle.session_core.specs.Takings as T;
ghost use Rattle.session_core.specs.Takings.{took_text};

use binkp_frame::Frame;
use ftn_addr::Bytes;
use mail_conf::Conf;
use node_model::{Desk, DeskFault};
use session_core::{Gave, Session, Took, refuse, turn_away};
use std::alloc::Global;
use std::marker::Model;

/// With more bytes than these left to write no own turn is made.
pub const MOST_TO_TURN: usize = 65_536;

/// With more bytes than these left to write nothing is read.
pub const MOST_TO_READ: usize = 1_048_576;

/// More bytes than these are never left to write after a turn.
pub const MOST_LEFT: usize = 4_194_304;

/// The bytes that are left to write. Those that were written stay in front of them until they are as many; so no more bytes are
/// moved than were written, however few of them a line takes at a time.
#[derive(Drop)]
pub struct Unsent {
    bytes: Bytes,
    start: usize,
}

impl Model for Unsent {
    ghost use Rattle.std.specs.Prelude.{List, ℕ, ◌*◌, ◌≤◌, drop, length};

    ghost Value = { List ℕ };

    ghost view = { λ u. drop u.start u.bytes.list };

    ghost invariant = { λ u. 2 * u.start ≤ length u.bytes.list };
}

impl Unsent {
    /// Nothing is left. This takes no memory.
    pub fn new(alloc: Global) -> Unsent
        ensures { result ≡ [] }
    {
        Unsent {
            bytes: Bytes::new(alloc),
            start: 0,
        }
    }

    /// The number of bytes.
    pub fn len(&self) -> usize
        ensures { result ≡ length self.now }
    {
        self.bytes.len() - self.start
    }

    pub fn is_empty(&self) -> bool
        ensures { result ≡ nat_eq (length self.now) 0 }
    {
        self.len() == 0
    }

    pub fn as_slice(&self) -> &[u8]
        ensures { result.now ≡ self.now }
    {
        &self.bytes.as_slice()[self.start..]
    }

    /// The first `n` bytes were written.
    pub fn drop_front(&mut self, n: usize)
        requires { n ≤ length self.old }
        ensures { self.new ≡ drop n self.old }
    {
        let len = self.bytes.len();
        let start = self.start + n;
        if start < len - start {
            self.start = start;
        } else {
            self.bytes.drop_front(start);
            self.start = 0;
        }
    }

    /// The session takes the next frame of the peer's, and what it says stands behind.
    pub(crate) fn take<K: Desk>(
        &mut self,
        alloc: Global,
        session: &mut Session,
        frame: &Frame,
        conf: &Conf,
        desk: &mut K,
    ) -> Took
        requires addresses { AreAddresses (conf_text conf.now).addresses }
        requires sits { Sits (K.ready desk.old) (K.part desk.old) (stage_in session.old) }
        ensures row { MadeRow (Row (setting_in session.old (conf_text conf.now)) session.new.frames (stage_in session.old) (frame_text frame.now)) K.alone (K.stand desk.old) (K.stand desk.new) (told_of session.old) (told_of session.new) (stage_in session.new) self.old self.new (took_text result) }
        ensures sits { SitsStill (K.ready desk.new) (K.part desk.new) (stage_in session.new) (took_text result) }
        ensures lent { lent_in session.new ≡ lent_in session.old }
        ensures frames { session.new.frames ≡ min (session.old.frames + 1) (2 ^ 64 - 1) }
        ensures short { length self.new ≤ length self.old + 1100 }
    {
        session.take(alloc, frame, conf, desk, &mut self.bytes)
    }

    /// The session makes its own turn.
    pub(crate) fn give<K: Desk>(
        &mut self,
        alloc: Global,
        session: &mut Session,
        desk: &mut K,
    ) -> Gave
        requires { Sits (K.ready desk.old) (K.part desk.old) (stage_in session.old) }
        ensures row { MadeTurn (GiveRow session.old.setting.block (stage_in session.old)) K.alone (K.stand desk.old) (K.stand desk.new) (stage_in session.old) (stage_in session.new) self.old self.new (gave_text result) }
        ensures sits { SitsOn (K.ready desk.new) (K.part desk.new) (stage_in session.new) (gave_text result) }
        ensures keeps { Keeps session.old session.new }
        ensures told { told_of session.new ≡ told_of session.old }
        ensures sent { gave_text result ≡ G.Sent → 0 < length self.new }
        ensures short { length self.new ≤ length self.old + 32800 }
    {
        session.give(alloc, desk, &mut self.bytes)
    }

    /// The session greets its peer.
    pub(crate) fn greet(&mut self, alloc: Global, session: &Session, conf: &Conf) -> Took
        requires { AreAddresses (conf_text conf.now).addresses }
        ensures writes { Writes self.old self.new (said_bytes (greeting (lent_in session.now).side (conf_text conf.now) (lent_in session.now).challenge (lent_in session.now).moment)) T.More (took_text result) }
        ensures short { length self.new ≤ length self.old + 40000 }
    {
        session.greet(alloc, conf, &mut self.bytes)
    }

    /// A caller is turned away.
    pub(crate) fn turn_away(&mut self, alloc: Global) -> Took
        ensures writes { Writes self.old self.new too_many (T.Ended E.TurnedAway) (took_text result) }
        ensures short { length self.new ≤ length self.old + 40000 }
    {
        turn_away(alloc, &mut self.bytes)
    }

    /// The desk refused.
    pub(crate) fn refuse(&mut self, alloc: Global, fault: DeskFault) -> Took
        ensures writes { Writes self.old self.new (fault_bytes (fault_of fault)) (T.Ended (fault_end (fault_of fault))) (took_text result) }
        ensures short { length self.new ≤ length self.old + 40000 }
    {
        refuse(alloc, fault, &mut self.bytes)
    }
}
