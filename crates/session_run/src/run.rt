//! A session over a line, turn by turn.
ghost use Rattle.std.specs.Prelude.{◌≡◌, ◌+◌, ◌*◌, ◌^◌, ◌<◌, ◌≤◌, ◌&&◌, Bool, true, false, None, drop, length, [], IfNone, IfOk, OnErr, Option};
ghost use Rattle.binkp_frame.specs.Views.{frame_texts};
ghost use Rattle.node_model.specs.Calls.{DeskState};
ghost use Rattle.binkp_link.specs.Lines.{LineState, LineBytes, MayRead, MayWrite, came, went};
ghost use Rattle.session_core.specs.Replies.{Sits, SitsOn, SitsStill, lent_in, setting_in, stage_in};
ghost use Rattle.binkp_args.specs.Limits.{AreAddresses};
ghost use Rattle.mail_conf.specs.Conf.{ConfText};
ghost use Rattle.mail_conf.specs.ConfView.{conf_text};
ghost use Rattle.session_auth.specs.Sides.{side_of};
ghost use Rattle.session_core.specs.Stages.{Setting as Lent, setting_of};
ghost use Rattle.session_run.specs.Runs.{over_or};
ghost use Rattle.session_run.specs.Machine.{Phase, Starting, Taking, Writing, Reading, Over, Draining, after_gave, after_read, after_took, after_write, moved, quieted};
ghost use Rattle.session_core.specs.Ends.{End as Ending};
ghost use Rattle.session_core.specs.Givings.{gave_text};
ghost use Rattle.session_core.specs.Takings.{took_text};
ghost use Rattle.session_core.specs.Ends as E;
ghost use Rattle.session_core.specs.Takings as T;
ghost use Rattle.session_core.specs.Givings as G;

use crate::unsent::{MOST_LEFT, MOST_TO_READ, MOST_TO_TURN, Unsent};
use binkp_frame::{Decoder, Frame, pieces_add_up};
use binkp_link::{Line, ReadAnswer, WriteAnswer};
use ftn_addr::{Bytes, NoMemory};
use mail_conf::Conf;
use node_model::Desk;
use session_core::{End, Gave, Session, Side, Took};
use std::alloc::Global;

/// A session that goes on: what it knows, the bytes of a frame that isn't whole, the piece that was read and
/// not yet taken, what is left to write, and how many bytes were taken and written.
#[derive(Drop)]
pub struct Run {
    pub session: Session,
    pub decoder: Decoder,
    pub piece: Bytes,
    pub out: Unsent,
    pub taken: u64,
    pub wrote: u64,
}

impl Run {
    ghost use Rattle.session_run.specs.Runs.{Goes, Went, IsNew, Wrote, Came, SameCounts, Advances, InLimit, IsBounded, drain_room, drained, room, spot};

    /// Before the first turn. This takes no memory.
    pub fn new(alloc: Global, side: Side, conf: &Conf, challenge: [u8; 16], now: u64) -> Run
        requires some { 0 < (conf_text conf.now).block }
        requires fits { (conf_text conf.now).block ≤ 32767 }
        ensures new { IsNew result }
        ensures setting { setting_in result.session (conf_text conf.now) ≡ setting_of (side_of side) (conf_text conf.now) challenge now }
    {
        Run {
            session: Session::new(side, conf, challenge, now),
            decoder: Decoder::new(alloc),
            piece: Bytes::new(alloc),
            out: Unsent::new(alloc),
            taken: 0,
            wrote: 0,
        }
    }

    /// The number of bytes that are left to write. This takes no memory.
    pub fn left(&self) -> usize
        ensures { result ≡ length self.now.out }
    {
        self.out.len()
    }

    /// The frames that the piece makes whole.
    fn feed(&mut self, alloc: Global) -> Result<Vec<Frame>, NoMemory>
        ensures ok { IfOk result (λ frames. (alone : Bool) (s : Lent) (line : LineState) (desk : DeskState) →
            Goes alone s (spot self.old line desk [] Taking) (spot self.new line desk (frame_texts frames.items) Taking)) }
        ensures err { OnErr result ((alone : Bool) (s : Lent) (line : LineState) (desk : DeskState) →
            Goes alone s (spot self.old line desk [] Taking) (spot self.new line desk [] (Over E.NoMemory))) }
        ensures stage { self.new.session ≡ self.old.session }
        ensures piece { IfOk result (λ frames. self.new.piece.list ≡ []) }
        ensures counts { SameCounts self.old self.new }
        ensures out { self.new.out ≡ self.old.out }
        ensures few { IfOk result (λ frames. 3 * length frames.items ≤ length self.old.piece.list + 2) }
    {
        pieces_add_up();
        let mut frames = Vec::new(alloc);
        match self.decoder.feed(alloc, self.piece.as_slice(), &mut frames) {
            Ok(()) => {
                self.piece.clear();
                Ok(frames)
            }
            Err(error) => Err(error),
        }
    }

    /// Takes frames in order, up to one that ends the session.
    fn take_each<K: Desk>(
        &mut self,
        alloc: Global,
        frames: &[Frame],
        conf: &Conf,
        desk: &mut K,
    ) -> Took
        requires own { AreAddresses (conf_text conf.now).addresses }
        requires sits { Sits (K.ready desk.old) (K.part desk.old) (stage_in self.old.session) }
        requires piece { self.old.piece.list ≡ [] }
        ensures went { (line : LineState) → Went K.alone (setting_in self.old.session (conf_text conf.now)) (K.stand desk.old) (spot self.old line (K.stand desk.old).state (frame_texts frames.now) Taking) (K.stand desk.new) (spot self.new line (K.stand desk.new).state [] (after_took (took_text result))) }
        ensures sits { SitsStill (K.ready desk.new) (K.part desk.new) (stage_in self.new.session) (took_text result) }
        ensures piece { self.new.piece.list ≡ [] }
        ensures lent { lent_in self.new.session ≡ lent_in self.old.session }
        ensures counts { SameCounts self.old self.new }
        ensures short { length self.new.out ≤ length self.old.out + 1100 * length frames.now }
    {
        for frame in frames {
            match self.out.take(alloc, &mut self.session, frame, conf, desk) {
                Took::More => {}
                Took::Ended(end) => return Took::Ended(end),
            }
        }
        Took::More
    }

    /// Takes each frame that is whole, up to one that ends the session.
    fn take_all<K: Desk>(&mut self, alloc: Global, conf: &Conf, desk: &mut K) -> Took
        requires own { AreAddresses (conf_text conf.now).addresses }
        requires sits { Sits (K.ready desk.old) (K.part desk.old) (stage_in self.old.session) }
        requires bounded { IsBounded self.old }
        ensures went { (line : LineState) → Went K.alone (setting_in self.old.session (conf_text conf.now)) (K.stand desk.old) (spot self.old line (K.stand desk.old).state [] Taking) (K.stand desk.new) (spot self.new line (K.stand desk.new).state [] (after_took (took_text result))) }
        ensures sits { SitsStill (K.ready desk.new) (K.part desk.new) (stage_in self.new.session) (took_text result) }
        ensures piece { took_text result ≡ T.More → self.new.piece.list ≡ [] }
        ensures lent { lent_in self.new.session ≡ lent_in self.old.session }
        ensures counts { SameCounts self.old self.new }
        ensures bounded { length self.new.out ≤ MOST_LEFT }
    {
        match self.feed(alloc) {
            Ok(frames) => self.take_each(alloc, frames.as_slice(), conf, desk),
            Err(_) => Took::Ended(End::NoMemory),
        }
    }

    /// The own turn.
    fn give<K: Desk>(&mut self, alloc: Global, desk: &mut K) -> Gave
        requires sits { Sits (K.ready desk.old) (K.part desk.old) (stage_in self.old.session) }
        requires piece { self.old.piece.list ≡ [] }
        requires few { length self.old.out ≤ MOST_TO_TURN }
        ensures went { (conf : ConfText) (line : LineState) → Went K.alone (setting_in self.old.session conf) (K.stand desk.old) (spot self.old line (K.stand desk.old).state [] Taking) (K.stand desk.new) (spot self.new line (K.stand desk.new).state [] (after_gave (gave_text result))) }
        ensures sits { SitsOn (K.ready desk.new) (K.part desk.new) (stage_in self.new.session) (gave_text result) }
        ensures sent { gave_text result ≡ G.Sent → 0 < length self.new.out }
        ensures piece { self.new.piece.list ≡ self.old.piece.list }
        ensures lent { lent_in self.new.session ≡ lent_in self.old.session }
        ensures counts { SameCounts self.old self.new }
        ensures short { length self.new.out ≤ length self.old.out + 32800 }
    {
        self.out.give(alloc, &mut self.session, desk)
    }

    /// The own turn, where few enough bytes are left to write. One that isn't made doesn't wait.
    fn give_if_few<K: Desk>(&mut self, alloc: Global, desk: &mut K) -> Gave
        requires sits { Sits (K.ready desk.old) (K.part desk.old) (stage_in self.old.session) }
        requires piece { self.old.piece.list ≡ [] }
        requires bounded { length self.old.out ≤ MOST_LEFT }
        ensures went { (conf : ConfText) (line : LineState) → Went K.alone (setting_in self.old.session conf) (K.stand desk.old) (spot self.old line (K.stand desk.old).state [] Taking) (K.stand desk.new) (spot self.new line (K.stand desk.new).state [] (after_gave (gave_text result))) }
        ensures sits { SitsOn (K.ready desk.new) (K.part desk.new) (stage_in self.new.session) (gave_text result) }
        ensures sent { gave_text result ≡ G.Sent → 0 < length self.new.out }
        ensures piece { self.new.piece.list ≡ self.old.piece.list }
        ensures lent { lent_in self.new.session ≡ lent_in self.old.session }
        ensures counts { SameCounts self.old self.new }
        ensures bounded { length self.new.out ≤ MOST_LEFT }
    {
        if MOST_TO_TURN < self.left() {
            return Gave::Sent;
        }
        self.give(alloc, desk)
    }

    /// What an answer to a write leaves.
    fn wrote(&mut self, answer: WriteAnswer, calm: u64, limit: u64) -> Option<End>
        requires may { MayWrite answer self.old.out }
        requires below { self.old.taken + self.old.wrote < limit }
        requires limit { limit ≤ 2 ^ 62 }
        ensures did { Wrote self.old self.new (went answer self.old.out) }
        ensures to { (goal : Phase) → over_or result goal ≡ after_write answer limit (self.old.taken + self.new.wrote) calm goal }
    {
        match answer {
            WriteAnswer::Wrote(n) => {
                let left = self.out.as_slice().len();
                prove!(n <= left);
                self.out.drop_front(n);
                self.wrote += n as u64;
                endless(self.taken, self.wrote, limit)
            }
            WriteAnswer::Quiet => quiet(calm),
            WriteAnswer::Failed => Some(End::LineFault),
        }
    }

    /// One write of all that is left, where something is.
    fn write_once<L: Line>(&mut self, line: &mut L, waits: bool, limit: u64) -> Option<End>
        requires within { InLimit limit self.old (L.state line.old).calm }
        requires limit { limit ≤ 2 ^ 62 }
        requires open { (L.state line.old).closed ≡ false }
        ensures went { (alone : Bool) (s : Lent) (desk : DeskState) → s.limit ≡ limit →
            Goes alone s (spot self.old (L.state line.old) desk [] (Writing waits)) (spot self.new (L.state line.new) desk [] (over_or result (Reading waits))) }
        ensures session { self.new.session ≡ self.old.session }
        ensures piece { self.new.piece.list ≡ self.old.piece.list }
        ensures idle { self.old.out ≡ [] → self.new.out ≡ [] }
        ensures bounded { length self.new.out ≤ length self.old.out }
        ensures open { (L.state line.new).closed ≡ false }
        ensures advances { IfNone result (Advances limit self.old self.new (L.state line.old).calm (L.state line.new).calm (0 < length self.old.out)) }
    {
        if self.out.is_empty() {
            return None;
        }
        let answer = line.write(self.out.as_slice());
        self.wrote(answer, line.calm(), limit)
    }

    /// What an answer to a read leaves.
    fn came(&mut self, answer: ReadAnswer, buffer: &[u8], calm: u64, limit: u64) -> Option<End>
        requires may { (wait : Bool) × (bytes : Option LineBytes) × MayRead wait answer buffer.now bytes }
        requires room { length buffer.now ≤ self.old.piece.spare }
        requires below { self.old.taken + self.old.wrote < limit }
        requires limit { limit ≤ 2 ^ 62 }
        requires size { length buffer.now ≤ 4096 }
        ensures did { Came self.old self.new (came answer buffer.now) }
        ensures to { over_or result Taking ≡ after_read answer limit (self.new.taken + self.old.wrote) calm }
    {
        match answer {
            ReadAnswer::Came(n) => match self.piece.push_slice(&buffer[..n]) {
                Ok(()) => {
                    self.taken += n as u64;
                    endless(self.taken, self.wrote, limit)
                }
                Err(_) => unreachable!(),
            },
            ReadAnswer::End => Some(End::Dropped),
            ReadAnswer::NotYet => None,
            ReadAnswer::Quiet => quiet(calm),
            ReadAnswer::Failed => Some(End::LineFault),
        }
    }

    /// One read, where few enough bytes are left to write. It waits exactly where nothing is left and the own turn waits.
    fn read_once<L: Line>(&mut self, line: &mut L, waits: bool, limit: u64) -> Option<End>
        requires piece { self.old.piece.list ≡ [] }
        requires bounded { length self.old.out ≤ MOST_LEFT }
        requires within { InLimit limit self.old (L.state line.old).calm }
        requires limit { limit ≤ 2 ^ 62 }
        requires open { (L.state line.old).closed ≡ false }
        ensures went { (alone : Bool) (s : Lent) (desk : DeskState) → s.limit ≡ limit →
            Goes alone s (spot self.old (L.state line.old) desk [] (Reading waits)) (spot self.new (L.state line.new) desk [] (over_or result Taking)) }
        ensures session { self.new.session ≡ self.old.session }
        ensures open { (L.state line.new).closed ≡ false }
        ensures advances { IfNone result (Advances limit self.old self.new (L.state line.old).calm (L.state line.new).calm ((waits ≡ true) × (self.old.out ≡ []))) }
        ensures out { self.new.out ≡ self.old.out }
        ensures bounded { IfNone result (IsBounded self.new) }
    {
        if MOST_TO_READ < self.left() {
            return None;
        }
        if self.piece.reserve(4096).is_err() {
            return Some(End::NoMemory);
        }
        let mut buffer = [0u8; 4096];
        let wait = both(waits, self.out.is_empty());
        let answer = line.read(&mut buffer, wait);
        self.came(answer, &buffer, line.calm(), limit)
    }

    /// A turn of a session that goes on: the frames that are whole, the own turn, one write and one read.
    pub(crate) fn go_on<L: Line, K: Desk>(
        &mut self,
        alloc: Global,
        line: &mut L,
        conf: &Conf,
        desk: &mut K,
    ) -> Option<End>
        requires own { AreAddresses (conf_text conf.now).addresses }
        requires sits { Sits (K.ready desk.old) (K.part desk.old) (stage_in self.old.session) }
        requires within { InLimit self.old.session.setting.limit self.old (L.state line.old).calm }
        requires bounded { IsBounded self.old }
        requires limit { self.old.session.setting.limit ≤ 2 ^ 62 }
        requires open { (L.state line.old).closed ≡ false }
        ensures went { Went K.alone (setting_in self.old.session (conf_text conf.now)) (K.stand desk.old) (spot self.old (L.state line.old) (K.stand desk.old).state [] Taking) (K.stand desk.new) (spot self.new (L.state line.new) (K.stand desk.new).state [] (over_or result Taking)) }
        ensures ready { K.ready desk.new }
        ensures sits { IfNone result (Sits (K.ready desk.new) (K.part desk.new) (stage_in self.new.session)) }
        ensures open { (L.state line.new).closed ≡ false }
        ensures lent { lent_in self.new.session ≡ lent_in self.old.session }
        ensures goes_on { IfNone result (InLimit self.old.session.setting.limit self.new (L.state line.new).calm) }
        ensures bounded { IfNone result (IsBounded self.new) }
        ensures left { length self.new.out ≤ MOST_LEFT }
        ensures progress { IfNone result (room self.old.session.setting.limit self.new (L.state line.new).calm < room self.old.session.setting.limit self.old (L.state line.old).calm) }
    {
        let limit = self.session.setting.limit;
        match self.take_all(alloc, conf, desk) {
            Took::More => {}
            Took::Ended(end) => return Some(end),
        }
        let waits = match self.give_if_few(alloc, desk) {
            Gave::Sent => false,
            Gave::Waits => true,
            Gave::Ended(end) => return Some(end),
        };
        match self.write_once(line, waits, limit) {
            None => {}
            Some(end) => return Some(end),
        }
        self.read_once(line, waits, limit)
    }

    /// One write of what is left once the session is over; whether no more is to be written.
    pub(crate) fn drain<L: Line>(&mut self, line: &mut L) -> bool
        requires { (L.state line.old).closed ≡ false }
        ensures went { (alone : Bool) (s : Lent) (desk : DeskState) (end : Ending) →
            Goes alone s (spot self.old (L.state line.old) desk [] (Draining false end)) (spot self.new (L.state line.new) desk [] (drained result end)) }
        ensures open { (L.state line.new).closed ≡ false }
        ensures session { self.new.session ≡ self.old.session }
        ensures bounded { length self.new.out ≤ length self.old.out }
        ensures less { result ≡ false → drain_room self.new (L.state line.new).calm < drain_room self.old (L.state line.old).calm }
    {
        if self.out.is_empty() {
            return true;
        }
        match line.write(self.out.as_slice()) {
            WriteAnswer::Wrote(n) => {
                self.out.drop_front(n);
                self.wrote = self.wrote.saturating_add(n as u64);
                self.out.is_empty()
            }
            WriteAnswer::Quiet => line.calm() >= 60,
            WriteAnswer::Failed => true,
        }
    }
}

fn both(a: bool, b: bool) -> bool
    ensures { result ≡ (a && b) }
{
    a && b
}

/// The bytes moved reach the limit.
fn endless(taken: u64, wrote: u64, limit: u64) -> Option<End>
    ensures { (goal : Phase) → over_or result goal ≡ moved limit (taken + wrote) goal }
{
    if limit <= taken.saturating_add(wrote) {
        Some(End::Endless)
    } else {
        None
    }
}

/// The sixtieth Quiet on end.
fn quiet(calm: u64) -> Option<End>
    ensures { (goal : Phase) → over_or result goal ≡ quieted calm goal }
{
    if calm >= 60 { Some(End::Quiet) } else { None }
}
