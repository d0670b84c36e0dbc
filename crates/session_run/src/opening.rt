//! The first turn of a session over a line.
ghost use Rattle.std.specs.Prelude.{◌≡◌, ◌+◌, ◌^◌, ◌<◌, ◌≤◌, false, None, length, [], IfNone};
ghost use Rattle.binkp_args.specs.Limits.{AreAddresses};
ghost use Rattle.binkp_link.specs.Lines.{LineState};
ghost use Rattle.mail_conf.specs.ConfView.{conf_text};
ghost use Rattle.session_core.specs.Replies.{Sits, SitsStill, lent_in, setting_in, stage_in};
ghost use Rattle.session_core.specs.Takings.{took_text};
ghost use Rattle.session_run.specs.Machine.{Starting, Taking, after_took};
ghost use Rattle.session_run.specs.Runs.{InLimit, IsBounded, IsNew, SameCounts, Went, over_or, spot};

use crate::Run;
use crate::unsent::MOST_LEFT;
use binkp_link::Line;
use mail_conf::Conf;
use node_model::{Desk, Knock};
use session_core::{End, Took};
use std::alloc::Global;

impl Run {
    /// The first turn: this side knocks at its desk, and greets its peer or turns it away.
    fn greet<K: Desk>(&mut self, alloc: Global, conf: &Conf, desk: &mut K) -> Took
        requires own { AreAddresses (conf_text conf.now).addresses }
        requires new { IsNew self.old }
        requires ready { K.ready desk.old }
        requires part { K.part desk.old ≡ record { open_now = false; claim = None; held = None } }
        ensures went { (line : LineState) → Went K.alone (setting_in self.old.session (conf_text conf.now)) (K.stand desk.old) (spot self.old line (K.stand desk.old).state [] Starting) (K.stand desk.new) (spot self.new line (K.stand desk.new).state [] (after_took (took_text result))) }
        ensures sits { SitsStill (K.ready desk.new) (K.part desk.new) (stage_in self.new.session) (took_text result) }
        ensures lent { lent_in self.new.session ≡ lent_in self.old.session }
        ensures counts { SameCounts self.old self.new }
        ensures piece { self.new.piece.list ≡ self.old.piece.list }
        ensures short { length self.new.out ≤ length self.old.out + 40000 }
    {
        match desk.knock(self.session.role()) {
            Ok(Knock::Come) => self.out.greet(alloc, &self.session, conf),
            Ok(Knock::Busy) => self.out.turn_away(alloc),
            Err(fault) => self.out.refuse(alloc, fault),
        }
    }

    /// The first turn: this side knocks at its desk and greets its peer, and the session goes on from there.
    pub(crate) fn open<L: Line, K: Desk>(
        &mut self,
        alloc: Global,
        line: &mut L,
        conf: &Conf,
        desk: &mut K,
    ) -> Option<End>
        requires own { AreAddresses (conf_text conf.now).addresses }
        requires new { IsNew self.old }
        requires ready { K.ready desk.old }
        requires part { K.part desk.old ≡ record { open_now = false; claim = None; held = None } }
        requires some { 0 < self.old.session.setting.limit }
        requires limit { self.old.session.setting.limit ≤ 2 ^ 62 }
        requires calm { (L.state line.old).calm ≡ 0 }
        requires open { (L.state line.old).closed ≡ false }
        ensures went { Went K.alone (setting_in self.old.session (conf_text conf.now)) (K.stand desk.old) (spot self.old (L.state line.old) (K.stand desk.old).state [] Starting) (K.stand desk.new) (spot self.new (L.state line.new) (K.stand desk.new).state [] (over_or result Taking)) }
        ensures ready { K.ready desk.new }
        ensures sits { IfNone result (Sits (K.ready desk.new) (K.part desk.new) (stage_in self.new.session)) }
        ensures open { (L.state line.new).closed ≡ false }
        ensures lent { lent_in self.new.session ≡ lent_in self.old.session }
        ensures goes_on { IfNone result (InLimit self.old.session.setting.limit self.new (L.state line.new).calm) }
        ensures bounded { IfNone result (IsBounded self.new) }
        ensures left { length self.new.out ≤ MOST_LEFT }
    {
        match self.greet(alloc, conf, desk) {
            Took::More => self.go_on(alloc, line, conf, desk),
            Took::Ended(end) => Some(end),
        }
    }
}
