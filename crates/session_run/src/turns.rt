//! A session turn by turn, from its first words to its close.
ghost use Rattle.std.specs.Prelude.{◌≡◌, ◌^◌, ◌<◌, ◌≤◌, Bool, false, None, [], length, IfNone, IsSome};
ghost use Rattle.node_model.specs.Calls.{DeskState, counts_of};
ghost use Rattle.node_model.specs.Desks.{settled_answer};
ghost use Rattle.binkp_link.specs.Lines.{LineState, shut};
ghost use Rattle.session_core.specs.Ends.{end_text};
ghost use Rattle.binkp_args.specs.Limits.{AreAddresses};
ghost use Rattle.mail_conf.specs.ConfView.{conf_text};
ghost use Rattle.session_auth.specs.Sides.{side_of};
ghost use Rattle.session_core.specs.Replies.{lent_in, setting_in};
ghost use Rattle.session_core.specs.Stages.{Setting as Lent, setting_of};
ghost use Rattle.session_run.specs.Laws.{IsSession};
ghost use Rattle.session_run.specs.Machine.{Draining, Taking, is_mute, after_leave};
ghost use Rattle.session_run.specs.Runs.{IsNew, Went, drain_room, over_or, spot};
ghost use Rattle.session_run.specs.Courses.{IfEnded, IfMore, IsFree, IsLeft, MayTurn, Nearer, Tells_run, TurnGoes, TurnWent, phase_of, talks};
ghost use Rattle.session_run.specs.Reports.{report_text};
ghost use Rattle.session_run.specs.declared.report.Report.{Report};
ghost use Rattle.session_run.specs.declared.turns.Going.TheVariants as G;
ghost use Rattle.session_run.specs.declared.turns.Turn.TheVariants as T;

use crate::{MOST_LEFT, Report, Run};
use binkp_link::Line;
use mail_conf::Conf;
use node_model::{Desk, DeskFault};
use session_core::{End, Side};
use std::alloc::Global;
use std::mem;

/// How far a session has come.
#[derive(Debug, Drop)]
pub enum Going {
    /// Before its first turn.
    Starting,
    /// It goes on.
    Talking,
    /// It is over, with that end. What is left is written, unless its own end was mute.
    Draining(bool, End),
    /// It was closed, and reported.
    Closed,
}

/// What became of a turn.
#[derive(Debug, Drop)]
pub enum Turn {
    More,
    /// The session is over, and its line is closed.
    Ended(Report),
}

/// A `leave` that answers Disk turns any end.
fn turned(end: End, answer: Result<(), DeskFault>) -> End
    ensures { end_text result ≡ after_leave (end_text end) (settled_answer answer) }
{
    match answer {
        Err(DeskFault::Disk(count)) => End::DiskFault(count),
        Err(DeskFault::Read(_)) => end,
        Err(DeskFault::Full) => end,
        Err(DeskFault::NoMemory) => end,
        Ok(()) => end,
    }
}

fn is_mute(end: &End) -> bool
    ensures { result ≡ is_mute (end_text end.now) }
{
    matches!(end, End::LineFault | End::Quiet)
}

/// A session over a line, and how far it has come.
#[derive(Drop)]
pub struct Course {
    pub run: Run,
    pub going: Going,
}

impl Course {
    /// Before the first turn, with the settings' limit and block. The challenge is offered at the answering side alone. This
    /// takes no memory.
    pub fn new(alloc: Global, side: Side, conf: &Conf, challenge: [u8; 16], now: u64) -> Course
        requires some { 0 < (conf_text conf.now).block }
        requires fits { (conf_text conf.now).block ≤ 32767 }
        ensures run { IsNew result.run }
        ensures setting { setting_in result.run.session (conf_text conf.now) ≡ setting_of (side_of side) (conf_text conf.now) challenge now }
        ensures going { result.going ≡ G.Starting }
    {
        Course {
            run: Run::new(alloc, side, conf, challenge, now),
            going: Going::Starting,
        }
    }

    /// Whether its end isn't there yet.
    pub fn talks(&self) -> bool
        ensures { result ≡ talks self.now.going }
    {
        match self.going {
            Going::Starting => true,
            Going::Talking => true,
            Going::Draining(_, _) => false,
            Going::Closed => false,
        }
    }

    /// The number of bytes that are left to write. This takes no memory.
    pub fn left(&self) -> usize
        ensures { result ≡ length self.now.run.out }
    {
        self.run.left()
    }

    /// The desk is left where the end is there.
    fn settle<K: Desk>(&mut self, end: Option<End>, desk: &mut K)
        requires { K.ready desk.old }
        ensures went { (s : Lent) (line : LineState) →
            Went K.alone s (K.stand desk.old) (spot self.old.run line (K.stand desk.old).state [] (over_or end Taking)) (K.stand desk.new) (spot self.new.run line (K.stand desk.new).state [] (phase_of self.new.going)) }
        ensures run { self.new.run ≡ self.old.run }
        ensures on { IfNone end (self.new.going ≡ G.Talking) }
        ensures part { IfNone end (K.part desk.new ≡ K.part desk.old) }
        ensures over { IsSome end → talks self.new.going ≡ false }
        ensures leaves { IsSome end → IsLeft self.new.going }
        ensures left { IsSome end → IsFree (counts_of (K.stand desk.new).state.knows).broken (K.part desk.new) }
        ensures ready { K.ready desk.new }
    {
        match end {
            None => self.going = Going::Talking,
            Some(end) => {
                let mute = is_mute(&end);
                self.going = Going::Draining(mute, turned(end, desk.leave()));
            }
        }
    }

    /// The line is closed, and the session is reported.
    fn shut<L: Line>(&mut self, line: &mut L, end: End) -> Turn
        ensures turn { (report : Report) × (result ≡ T.Ended report) × Tells_run report self.old.run × (report.end ≡ end) }
        ensures line { L.state line.new ≡ shut (L.state line.old) }
        ensures out { self.new.run.out ≡ self.old.run.out }
    {
        line.close();
        self.going = Going::Closed;
        let tally = self.run.session.tally();
        let login = mem::replace(&mut self.run.session.login, None);
        Turn::Ended(Report::new(login, tally, self.run.taken, self.run.wrote, end))
    }

    /// A turn of a session that is over.
    fn drain<L: Line>(&mut self, line: &mut L, mute: bool, end: End) -> Turn
        requires { (L.state line.old).closed ≡ false }
        ensures went { (alone : Bool) (s : Lent) (desk : DeskState) →
            TurnGoes alone s (spot self.old.run (L.state line.old) desk [] (Draining mute (end_text end))) self.new (L.state line.new) result }
        ensures going { IfMore result (self.new.going ≡ G.Draining mute end) }
        ensures lent { IfMore result (lent_in self.new.run.session ≡ lent_in self.old.run.session) }
        ensures open { IfMore result ((L.state line.new).closed ≡ false) }
        ensures bounded { length self.new.run.out ≤ length self.old.run.out }
        ensures less { IfMore result (drain_room self.new.run (L.state line.new).calm < drain_room self.old.run (L.state line.old).calm) }
    {
        if mute {
            return self.shut(line, end);
        }
        if self.run.drain(line) {
            return self.shut(line, end);
        }
        self.going = Going::Draining(mute, end);
        Turn::More
    }

    /// A turn. At its first one the caller knocks. Once the end is there, the desk is left in that same turn, and each
    /// turn that follows makes one write of what is left; the line is closed in the one that leaves nothing to write.
    ///
    /// The settings are the same at each turn. Whatever the peer does, no more than [`MOST_LEFT`] bytes are left to write.
    pub fn turn<L: Line, K: Desk>(
        &mut self,
        alloc: Global,
        line: &mut L,
        conf: &Conf,
        desk: &mut K,
    ) -> Turn
        requires own { AreAddresses (conf_text conf.now).addresses }
        requires ready { K.ready desk.old }
        requires may { MayTurn (K.ready desk.old) (K.part desk.old) (counts_of (K.stand desk.old).state.knows).broken (L.state line.old).calm self.old.run self.old.going }
        requires limit { self.old.run.session.setting.limit ≤ 2 ^ 62 }
        requires open { (L.state line.old).closed ≡ false }
        ensures went { TurnWent K.alone (setting_in self.old.run.session (conf_text conf.now)) (K.stand desk.old) (spot self.old.run (L.state line.old) (K.stand desk.old).state [] (phase_of self.old.going)) (K.stand desk.new) self.new (L.state line.new) result }
        ensures ready { K.ready desk.new }
        ensures lent { IfMore result (lent_in self.new.run.session ≡ lent_in self.old.run.session) }
        ensures may { IfMore result (MayTurn (K.ready desk.new) (K.part desk.new) (counts_of (K.stand desk.new).state.knows).broken (L.state line.new).calm self.new.run self.new.going) }
        ensures open { IfMore result ((L.state line.new).closed ≡ false) }
        ensures nearer { IfMore result (Nearer self.old.run.session.setting.limit self.old (L.state line.old).calm self.new (L.state line.new).calm self.old.going) }
        ensures left { IfEnded result (IsFree (counts_of (K.stand desk.new).state.knows).broken (K.part desk.new)) }
        ensures bounded { length self.new.run.out ≤ MOST_LEFT }
    {
        match mem::replace(&mut self.going, Going::Closed) {
            Going::Starting => {
                let end = self.run.open(alloc, line, conf, desk);
                self.settle(end, desk);
                Turn::More
            }
            Going::Talking => {
                let end = self.run.go_on(alloc, line, conf, desk);
                self.settle(end, desk);
                Turn::More
            }
            Going::Draining(mute, end) => self.drain(line, mute, end),
            Going::Closed => unreachable!(),
        }
    }
}

/// One whole session over a line, at either side, which is closed at its end.
pub fn run_session<L: Line, K: Desk>(
    alloc: Global,
    side: Side,
    line: &mut L,
    desk: &mut K,
    conf: &Conf,
    challenge: [u8; 16],
    now: u64,
) -> Report
    requires own { AreAddresses (conf_text conf.now).addresses }
    requires block { 0 < (conf_text conf.now).block }
    requires fits { (conf_text conf.now).block ≤ 32767 }
    requires ready { K.ready desk.old }
    requires part { K.part desk.old ≡ record { open_now = false; claim = None; held = None } }
    requires some { 0 < (conf_text conf.now).session_limit }
    requires limit { (conf_text conf.now).session_limit ≤ 2 ^ 62 }
    requires calm { (L.state line.old).calm ≡ 0 }
    requires open { (L.state line.old).closed ≡ false }
    ensures session { IsSession K.alone (setting_of (side_of side) (conf_text conf.now) challenge now) (L.state line.old) (K.stand desk.old) (report_text result) (L.state line.new) (K.stand desk.new) }
    ensures ready { K.ready desk.new }
    ensures left { IsFree (counts_of (K.stand desk.new).state.knows).broken (K.part desk.new) }
{
    let mut course = Course::new(alloc, side, conf, challenge, now);
    while course.talks() {
        match course.turn(alloc, line, conf, desk) {
            Turn::More => {}
            Turn::Ended(report) => return report,
        }
    }
    loop {
        match course.turn(alloc, line, conf, desk) {
            Turn::More => {}
            Turn::Ended(report) => return report,
        }
    }
}
