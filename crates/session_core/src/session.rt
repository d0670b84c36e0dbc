//! A session: what a frame of the peer's does, and the own turn.
ghost use Rattle.std.specs.Prelude.{◌≡◌};
ghost use Rattle.session_core.specs.Blocks.{block_at};

use crate::login::{Login, home_of, role_of};
use crate::saying::break_off;
use crate::stage::Stage;
use crate::terms::Setting;
use crate::{Cause, End, Gave, Took};
use binkp_args::{ArgFault, Command, read_command};
use binkp_frame::Frame;
use ftn_addr::Bytes;
use mail_conf::Conf;
use node_model::{Desk, Role};
use session_auth::{Auth, Side};
use std::alloc::Global;
use std::mem;

/// A session: its login, which has its side, what holds for all of it, how far it has come, how many frames it took, and
/// what the login gave.
#[derive(Debug, Drop)]
pub struct Session {
    pub auth: Auth,
    pub setting: Setting,
    pub stage: Stage,
    pub frames: u64,
    /// Once the desk has opened its session.
    pub login: Option<Login>,
    pub ghost block: { block_at setting.block stage ≡ setting.block },
}

impl Session {
    ghost use Rattle.std.specs.Prelude.{None, ◌<◌, ◌≤◌, ◌+◌, ◌-◌, ◌^◌, min, length};
    ghost use Rattle.binkp_args.specs.Command.{command_text, command_of};
    ghost use Rattle.binkp_args.specs.Limits.{AreAddresses, HasFile, HasAddresses};
    ghost use Rattle.binkp_frame.specs.Views.{frame_text};
    ghost use Rattle.mail_conf.specs.ConfView.{conf_text};
    ghost use Rattle.session_auth.specs.Greeting.{greeting};
    ghost use Rattle.session_auth.specs.Says.{said_bytes};
    ghost use Rattle.session_auth.specs.Sides.{side_of};
    ghost use Rattle.session_core.specs.Givings as G;
    ghost use Rattle.session_core.specs.Givings.{gave_text};
    ghost use Rattle.session_core.specs.Takings as T;
    ghost use Rattle.session_core.specs.Takings.{took_text};
    ghost use Rattle.session_core.specs.Stages.{at_first, role_of, setting_of, untold};
    ghost use Rattle.session_core.specs.Sessions.{CommandRow, DataRow, GiveRow, ReadRow, Row};
    ghost use Rattle.session_core.specs.Replies.{Keeps, MadeRow, MadeTurn, RefusesArgument, Sits, SitsOn, SitsStill, Writes, lent_in, told_of, setting_in, stage_in};

    /// Before the greeting, with the settings' limit and block. The challenge is offered at the answering side alone. This
    /// takes no memory.
    pub fn new(side: Side, conf: &Conf, challenge: [u8; 16], now: u64) -> Session
        requires some { 0 < (conf_text conf.now).block }
        requires fits { (conf_text conf.now).block ≤ 32767 }
        ensures setting { setting_in result (conf_text conf.now) ≡ setting_of (side_of side) (conf_text conf.now) challenge now }
        ensures stage { stage_in result ≡ at_first }
        ensures frames { result.frames ≡ 0 }
        ensures told { told_of result ≡ untold }
    {
        Session {
            auth: Auth::new(side, challenge),
            setting: Setting {
                moment: now,
                limit: conf.session_limit,
                block: conf.block,
            },
            stage: Stage::LogsIn,
            frames: 0,
            login: None,
        }
    }

    /// Its role at the desk.
    pub fn role(&self) -> Role
        ensures { result ≡ role_of (lent_in self.now).side }
    {
        role_of(self.auth.side())
    }

    /// Greets the peer, in 40,000 bytes at the most.
    pub fn greet(&self, alloc: Global, conf: &Conf, out: &mut Bytes) -> Took
        requires { AreAddresses (conf_text conf.now).addresses }
        ensures writes { Writes out.old.list out.new.list (said_bytes (greeting (lent_in self.now).side (conf_text conf.now) (lent_in self.now).challenge (lent_in self.now).moment)) T.More (took_text result) }
        ensures short { length out.new.list ≤ length out.old.list + 40000 }
    {
        match self.auth.greet(alloc, conf, self.setting.moment, out) {
            Ok(()) => Took::More,
            Err(_) => Took::Ended(End::NoMemory),
        }
    }

    /// Takes the next frame of the peer's, and writes 1,100 bytes at the most. After an end the session isn't used any more.
    pub fn take<K: Desk>(
        &mut self,
        alloc: Global,
        frame: &Frame,
        conf: &Conf,
        desk: &mut K,
        out: &mut Bytes,
    ) -> Took
        requires addresses { AreAddresses (conf_text conf.now).addresses }
        requires sits { Sits (K.ready desk.old) (K.part desk.old) (stage_in self.old) }
        ensures row { MadeRow (Row (setting_in self.old (conf_text conf.now)) self.new.frames (stage_in self.old) (frame_text frame.now)) K.alone (K.stand desk.old) (K.stand desk.new) (told_of self.old) (told_of self.new) (stage_in self.new) out.old.list out.new.list (took_text result) }
        ensures sits { SitsStill (K.ready desk.new) (K.part desk.new) (stage_in self.new) (took_text result) }
        ensures lent { lent_in self.new ≡ lent_in self.old }
        ensures frames { self.new.frames ≡ min (self.old.frames + 1) (2 ^ 64 - 1) }
        ensures short { length out.new.list ≤ length out.old.list + 1100 }
    {
        self.frames = self.frames.saturating_add(1);
        match frame {
            Frame::Command { number, args } => {
                self.take_argument(alloc, *number, args, conf, desk, out)
            }
            Frame::Data { bytes } => self.take_data(alloc, bytes.as_slice(), desk, out),
        }
    }

    /// Makes the own turn, and writes 32,800 bytes at the most. After an end the session isn't used any more.
    pub fn give<K: Desk>(&mut self, alloc: Global, desk: &mut K, out: &mut Bytes) -> Gave
        requires sits { Sits (K.ready desk.old) (K.part desk.old) (stage_in self.old) }
        ensures row { MadeTurn (GiveRow self.old.setting.block (stage_in self.old)) K.alone (K.stand desk.old) (K.stand desk.new) (stage_in self.old) (stage_in self.new) out.old.list out.new.list (gave_text result) }
        ensures sits { SitsOn (K.ready desk.new) (K.part desk.new) (stage_in self.new) (gave_text result) }
        ensures keeps { Keeps self.old self.new }
        ensures told { told_of self.new ≡ told_of self.old }
        ensures sent { gave_text result ≡ G.Sent → 0 < length out.new.list }
        ensures short { length out.new.list ≤ length out.old.list + 32800 }
    {
        match &mut self.stage {
            Stage::LogsIn => Gave::Waits,
            Stage::Talks(talking) => talking.give(alloc, desk, out),
        }
    }

    /// A command frame: its argument is read.
    fn take_argument<K: Desk>(
        &mut self,
        alloc: Global,
        number: u8,
        args: &Bytes,
        conf: &Conf,
        desk: &mut K,
        out: &mut Bytes,
    ) -> Took
        requires own { AreAddresses (conf_text conf.now).addresses }
        requires sits { Sits (K.ready desk.old) (K.part desk.old) (stage_in self.old) }
        ensures row { MadeRow (ReadRow (setting_in self.old (conf_text conf.now)) self.old.frames (stage_in self.old) (command_of (setting_in self.old (conf_text conf.now)).home number args.now.list)) K.alone (K.stand desk.old) (K.stand desk.new) (told_of self.old) (told_of self.new) (stage_in self.new) out.old.list out.new.list (took_text result) }
        ensures sits { SitsStill (K.ready desk.new) (K.part desk.new) (stage_in self.new) (took_text result) }
        ensures keeps { Keeps self.old self.new }
    {
        match read_command(alloc, number, args.as_slice(), home_of(conf)) {
            Ok(command) => self.take_command(alloc, command, conf, desk, out),
            Err(fault) => self.refuse_argument(alloc, fault, out),
        }
    }

    /// An argument that wasn't read: it can't be, or no memory was left.
    fn refuse_argument(&self, alloc: Global, fault: ArgFault, out: &mut Bytes) -> Took
        ensures { RefusesArgument self.now.frames (stage_in self.now) fault out.old.list out.new.list (took_text result) }
    {
        match fault {
            ArgFault::NoMemory => Took::Ended(End::NoMemory),
            _ => Took::Ended(break_off(alloc, Cause::Arg(fault), self.frames, out)),
        }
    }

    /// A command that was read.
    fn take_command<K: Desk>(
        &mut self,
        alloc: Global,
        command: Command,
        conf: &Conf,
        desk: &mut K,
        out: &mut Bytes,
    ) -> Took
        requires sits { Sits (K.ready desk.old) (K.part desk.old) (stage_in self.old) }
        requires file { HasFile (command_text command) }
        requires addresses { HasAddresses (command_text command) }
        ensures row { MadeRow (CommandRow (setting_in self.old (conf_text conf.now)) self.old.frames (stage_in self.old) (command_text command)) K.alone (K.stand desk.old) (K.stand desk.new) (told_of self.old) (told_of self.new) (stage_in self.new) out.old.list out.new.list (took_text result) }
        ensures sits { SitsStill (K.ready desk.new) (K.part desk.new) (stage_in self.new) (took_text result) }
        ensures keeps { Keeps self.old self.new }
    {
        match mem::replace(&mut self.stage, Stage::LogsIn) {
            Stage::LogsIn => self.take_at_login(alloc, command, conf, desk, out),
            Stage::Talks(mut talking) => {
                let took = talking.take_command(alloc, self.frames, command, desk, out);
                self.stage = Stage::Talks(talking);
                took
            }
        }
    }

    /// A data frame.
    fn take_data<K: Desk>(
        &mut self,
        alloc: Global,
        bytes: &[u8],
        desk: &mut K,
        out: &mut Bytes,
    ) -> Took
        requires sits { Sits (K.ready desk.old) (K.part desk.old) (stage_in self.old) }
        ensures row { MadeRow (DataRow self.old.frames (stage_in self.old) bytes.now) K.alone (K.stand desk.old) (K.stand desk.new) (told_of self.old) (told_of self.new) (stage_in self.new) out.old.list out.new.list (took_text result) }
        ensures sits { SitsStill (K.ready desk.new) (K.part desk.new) (stage_in self.new) (took_text result) }
        ensures keeps { Keeps self.old self.new }
    {
        let number = self.frames;
        match &mut self.stage {
            Stage::LogsIn => Took::Ended(break_off(alloc, Cause::OutOfTurn, number, out)),
            Stage::Talks(talking) => talking.take_data(alloc, number, bytes, desk, out),
        }
    }
}
