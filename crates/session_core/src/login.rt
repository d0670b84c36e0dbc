//! The login: what becomes of the session by each of its steps.
ghost use Rattle.std.specs.Prelude.{◌≡◌, ℕ, List, map, ◌∷◌, ◌++◌, length, ◌<◌};
ghost use Rattle.ftn_addr.specs.Address.{Address, address};
ghost use Rattle.mail_conf.specs.ConfView.{conf_text};
ghost use Rattle.session_auth.specs.Sides.{side_of};
ghost use Rattle.session_core.specs.Sessions.{cause_of};
ghost use Rattle.session_core.specs.Stages.{home_of, role_of};

use crate::saying::end_by_fault;
use crate::session::Session;
use crate::stage::{Stage, Talking};
use crate::{Cause, End, Took};
use binkp_args::{ArgFault, Command};
use ftn_addr::{Addr, Bytes};
use mail_conf::Conf;
use node_model::{Desk, Role};
use session_auth::{AuthStep, Login as LetIn, LoginFault, Side};
use std::alloc::Global;

/// What a login gave: the session's number at its desk, and the peer's first address.
#[derive(Debug, Drop)]
pub struct Login {
    pub number: u32,
    pub peer: Addr,
}

/// The role of a side at a desk.
pub fn role_of(side: &Side) -> Role
    ensures { result ≡ role_of (side_of side.now) }
{
    match side {
        Side::Answers => Role::Answers,
        Side::Calls(_) => Role::Calls,
    }
}

/// The home: the first own address.
pub fn home_of(conf: &Conf) -> &Addr
    requires { 0 < length (conf_text conf.now).addresses }
    ensures { address result.now ≡ home_of (conf_text conf.now).addresses }
{
    &conf.addresses[0]
}

fn cause_of(fault: LoginFault) -> Cause
    ensures { result ≡ cause_of fault }
{
    match fault {
        LoginFault::NoAddress => Cause::Arg(ArgFault::NoAddress),
        LoginFault::NotCalled => Cause::NotCalled,
        LoginFault::OutOfTurn => Cause::OutOfTurn,
    }
}

/// The first of the peer's addresses.
fn first_of(login: LetIn) -> Addr
    ensures { (others : List Address) × (map address login.peers.items ≡ address result ∷ others) }
{
    let mut peers = login.peers;
    peers.swap_remove(0)
}

impl Session {
    ghost use Rattle.binkp_args.specs.Command.{command_text};
    ghost use Rattle.binkp_args.specs.Limits.{AreAddresses, HasAddresses};
    ghost use Rattle.mail_conf.specs.Conf.{ConfText};
    ghost use Rattle.session_auth.specs.Login.{Stage as LoginStage};
    ghost use Rattle.session_auth.specs.Views.{stage_in as login_stage, step_of};
    ghost use Rattle.session_core.specs.declared.stage.Stage.TheVariants as S;
    ghost use Rattle.session_core.specs.Takings.{took_text};
    ghost use Rattle.session_core.specs.Stages.{Logs_in};
    ghost use Rattle.session_core.specs.Sessions.{BeginRow, LoginRow, StepRow};
    ghost use Rattle.session_core.specs.Replies.{Keeps, Made, MadeRow, Sits, SitsStill, told_of, setting_in, stage_in};

    /// A command at the login.
    pub(crate) fn take_at_login<K: Desk>(
        &mut self,
        alloc: Global,
        command: Command,
        conf: &Conf,
        desk: &mut K,
        out: &mut Bytes,
    ) -> Took
        requires addresses { HasAddresses (command_text command) }
        requires at_login { self.old.stage ≡ S.LogsIn }
        requires sits { Sits (K.ready desk.old) (K.part desk.old) (Logs_in (login_stage self.old.auth)) }
        ensures row { MadeRow (LoginRow (setting_in self.old (conf_text conf.now)) self.old.frames (login_stage self.old.auth) (command_text command)) K.alone (K.stand desk.old) (K.stand desk.new) (told_of self.old) (told_of self.new) (stage_in self.new) out.old.list out.new.list (took_text result) }
        ensures sits { SitsStill (K.ready desk.new) (K.part desk.new) (stage_in self.new) (took_text result) }
        ensures keeps { Keeps self.old self.new }
    {
        match self.auth.take(alloc, command, conf, out) {
            Ok(step) => self.follow(alloc, step, desk, out),
            Err(_) => Took::Ended(End::NoMemory),
        }
    }

    /// What becomes of the session by a step of its login, of which all was said.
    fn follow<K: Desk>(
        &mut self,
        alloc: Global,
        step: AuthStep,
        desk: &mut K,
        out: &mut Bytes,
    ) -> Took
        requires at_login { self.old.stage ≡ S.LogsIn }
        requires sits { Sits (K.ready desk.old) (K.part desk.old) (Logs_in (login_stage self.old.auth)) }
        ensures row { (conf : ConfText) (at : LoginStage) (before said : List ℕ) → out.old.list ≡ before ++ said →
            Made (StepRow (setting_in self.old conf) self.old.frames at said (step_of self.old.auth step)) K.alone (K.stand desk.old) (K.stand desk.new) (told_of self.old) (told_of self.new) (stage_in self.new) before out.new.list (took_text result) }
        ensures sits { SitsStill (K.ready desk.new) (K.part desk.new) (stage_in self.new) (took_text result) }
        ensures keeps { Keeps self.old self.new }
    {
        match step {
            AuthStep::More => Took::More,
            AuthStep::In(login) => self.begin(alloc, login, desk, out),
            AuthStep::BadPassword(wanted, given) => Took::Ended(End::BadPassword(wanted, given)),
            AuthStep::PeerError(text) => Took::Ended(End::PeerError(text)),
            AuthStep::PeerBusy => Took::Ended(End::PeerBusy),
            AuthStep::Broke(fault) => Took::Ended(End::Broke(cause_of(fault), self.frames)),
        }
    }

    /// Opens a session for the peer that is let in.
    fn begin<K: Desk>(&mut self, alloc: Global, login: LetIn, desk: &mut K, out: &mut Bytes) -> Took
        requires at_login { self.old.stage ≡ S.LogsIn }
        requires sits { Sits (K.ready desk.old) (K.part desk.old) (Logs_in (login_stage self.old.auth)) }
        ensures row { (conf : ConfText) (at : LoginStage) (before said : List ℕ) → out.old.list ≡ before ++ said →
            Made (BeginRow (setting_in self.old conf) at said (map address login.peers.items) login.secure) K.alone (K.stand desk.old) (K.stand desk.new) (told_of self.old) (told_of self.new) (stage_in self.new) before out.new.list (took_text result) }
        ensures sits { SitsStill (K.ready desk.new) (K.part desk.new) (stage_in self.new) (took_text result) }
        ensures keeps { Keeps self.old self.new }
    {
        let role = role_of(self.auth.side());
        match desk.begin(
            alloc,
            role,
            login.peers.as_slice(),
            login.secure,
            self.setting.moment,
        ) {
            Ok(number) => {
                let peer = first_of(login);
                self.login = Some(Login { number, peer });
                self.stage = Stage::Talks(Talking::new(role, self.setting.block));
                Took::More
            }
            Err(fault) => Took::Ended(end_by_fault(alloc, fault, out)),
        }
    }
}
