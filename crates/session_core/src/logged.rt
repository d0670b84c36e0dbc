//! A session after login: the messages of the peer's, and the own turn.
ghost use Rattle.std.specs.Prelude.{◌≡◌, ◌+◌, ◌<◌, ◌≤◌, ◌||◌, None, length};
ghost use Rattle.binkp_args.specs.Command.{command_text};
ghost use Rattle.binkp_args.specs.Limits.{HasFile};
ghost use Rattle.ftn_addr.specs.Key.{key_of};
ghost use Rattle.ftn_addr.specs.Limits.{IsKey};
ghost use Rattle.node_model.specs.Talk.{File, Data, calls, first_words, is_finished, is_idle};
ghost use Rattle.session_recv.specs.Replies.{held_of, step_outcome};
ghost use Rattle.session_core.specs.Givings.{gave_text};
ghost use Rattle.session_core.specs.Givings as G;
ghost use Rattle.session_core.specs.Takings.{took_text};
ghost use Rattle.session_core.specs.Sessions.{AnswerRow, LoggedRow, TalkRow, TalkTurn, outcome_bytes, outcome_took};
ghost use Rattle.session_core.specs.Stages.{nothing_yet};
ghost use Rattle.session_core.specs.Replies.{Counts, EndsBatch, MadeTurn, Sits, SitsOn, SitsStill, Writes, talk_of, tally_of, talking_stage};

use crate::saying::{break_off, end_by_fault, say_end};
use crate::stage::Talking;
use crate::{Cause, End, Gave, Took};
use binkp_args::Command;
use ftn_addr::{Bytes, FileKey};
use node_model::{Desk, DeskFault, Role};
use session_recv::{Holding, Receiver, RecvStep};
use session_send::{SendStep, Sender};
use std::alloc::Global;

/// Tells what became of a message that the receiving half took.
fn conclude(alloc: Global, number: u64, step: Result<RecvStep, DeskFault>, out: &mut Bytes) -> Took
    ensures { Writes out.old.list out.new.list (outcome_bytes (step_outcome step)) (outcome_took number (step_outcome step)) (took_text result) }
{
    match step {
        Ok(RecvStep::More) => Took::More,
        Ok(RecvStep::Late) => Took::Ended(break_off(alloc, Cause::Late, number, out)),
        Ok(RecvStep::TooMuch) => Took::Ended(break_off(alloc, Cause::TooMuch, number, out)),
        Err(fault) => Took::Ended(end_by_fault(alloc, fault, out)),
    }
}

fn is_idle(receiver: &Receiver) -> bool
    ensures { result ≡ is_idle (held_of receiver.now) }
{
    match &receiver.holding {
        Holding::Idle => true,
        Holding::Dropping(_) => false,
        Holding::Taking(_) => false,
    }
}

fn calls(role: Role) -> bool
    ensures { result ≡ calls role }
{
    match role {
        Role::Calls => true,
        Role::Answers => false,
    }
}

impl Talking {
    /// The first words of a session that has that role. This takes no memory.
    pub fn new(role: Role, block: u16) -> Talking
        requires some { 0 < block }
        requires fits { block ≤ 32767 }
        ensures talk { talk_of result ≡ first_words role }
        ensures held { held_of result.receiver ≡ None }
        ensures none { tally_of result ≡ nothing_yet }
        ensures block { result.sender.block ≡ block }
    {
        Talking {
            role,
            sender: Sender::new(block),
            receiver: Receiver::new(),
            own_end: false,
            peer_end: false,
        }
    }

    /// A command of the peer's.
    pub fn take_command<K: Desk>(
        &mut self,
        alloc: Global,
        number: u64,
        command: Command,
        desk: &mut K,
        out: &mut Bytes,
    ) -> Took
        requires file { HasFile (command_text command) }
        requires sits { Sits (K.ready desk.old) (K.part desk.old) (talking_stage self.old) }
        ensures row { Counts (LoggedRow number (talk_of self.old) (held_of self.old.receiver) (command_text command)) K.alone (K.stand desk.old) (K.stand desk.new) (tally_of self.old) (tally_of self.new) (talking_stage self.new) out.old.list out.new.list (took_text result) }
        ensures sits { SitsStill (K.ready desk.new) (K.part desk.new) (talking_stage self.new) (took_text result) }
        ensures block { self.new.sender.block ≡ self.old.sender.block }
    {
        match command {
            Command::Nul(_) => Took::More,
            Command::Adr(_) => Took::More,
            Command::Pwd(_) => Took::More,
            Command::Accept(_) => Took::More,
            Command::Other(_) => Took::More,
            Command::File(key, offset) => self.take_file(alloc, number, key, offset, desk, out),
            Command::Eob => {
                self.peer_end = true;
                Took::More
            }
            Command::Got(key) => self.take_answer(alloc, number, &Command::Got(key), desk, out),
            Command::Get(key, place) => {
                self.take_answer(alloc, number, &Command::Get(key, place), desk, out)
            }
            Command::Skip(key) => self.take_answer(alloc, number, &Command::Skip(key), desk, out),
            Command::Err(text) => Took::Ended(End::PeerError(text)),
            Command::Bsy(_) => Took::Ended(End::PeerBusy),
        }
    }

    /// M_FILE.
    fn take_file<K: Desk>(
        &mut self,
        alloc: Global,
        number: u64,
        key: FileKey,
        offset: u64,
        desk: &mut K,
        out: &mut Bytes,
    ) -> Took
        requires limits { IsKey (key_of key) }
        requires sits { Sits (K.ready desk.old) (K.part desk.old) (talking_stage self.old) }
        ensures row { Counts (TalkRow number (talk_of self.old) (held_of self.old.receiver) (File (key_of key) offset)) K.alone (K.stand desk.old) (K.stand desk.new) (tally_of self.old) (tally_of self.new) (talking_stage self.new) out.old.list out.new.list (took_text result) }
        ensures sits { SitsStill (K.ready desk.new) (K.part desk.new) (talking_stage self.new) (took_text result) }
        ensures block { self.new.sender.block ≡ self.old.sender.block }
    {
        let step = self.receiver.take_file(alloc, key, offset, desk, out);
        conclude(alloc, number, step, out)
    }

    /// A data frame.
    pub fn take_data<K: Desk>(
        &mut self,
        alloc: Global,
        number: u64,
        bytes: &[u8],
        desk: &mut K,
        out: &mut Bytes,
    ) -> Took
        requires sits { Sits (K.ready desk.old) (K.part desk.old) (talking_stage self.old) }
        ensures row { Counts (TalkRow number (talk_of self.old) (held_of self.old.receiver) (Data bytes.now)) K.alone (K.stand desk.old) (K.stand desk.new) (tally_of self.old) (tally_of self.new) (talking_stage self.new) out.old.list out.new.list (took_text result) }
        ensures sits { SitsStill (K.ready desk.new) (K.part desk.new) (talking_stage self.new) (took_text result) }
        ensures block { self.new.sender.block ≡ self.old.sender.block }
    {
        let step = self.receiver.take_data(alloc, bytes, desk, out);
        conclude(alloc, number, step, out)
    }

    /// M_GOT, M_GET or M_SKIP.
    fn take_answer<K: Desk>(
        &mut self,
        alloc: Global,
        number: u64,
        command: &Command,
        desk: &mut K,
        out: &mut Bytes,
    ) -> Took
        requires file { HasFile (command_text command.now) }
        requires sits { Sits (K.ready desk.old) (K.part desk.old) (talking_stage self.old) }
        ensures row { Counts (AnswerRow number (talk_of self.old) (held_of self.old.receiver) (command_text command.now)) K.alone (K.stand desk.old) (K.stand desk.new) (tally_of self.old) (tally_of self.new) (talking_stage self.new) out.old.list out.new.list (took_text result) }
        ensures sits { SitsStill (K.ready desk.new) (K.part desk.new) (talking_stage self.new) (took_text result) }
        ensures block { self.new.sender.block ≡ self.old.sender.block }
    {
        match self.sender.take(alloc, command, desk, out) {
            Ok(()) => Took::More,
            Err(fault) => Took::Ended(end_by_fault(alloc, fault, out)),
        }
    }

    /// The own turn: a frame of a file, the own M_EOB, or nothing.
    pub fn give<K: Desk>(&mut self, alloc: Global, desk: &mut K, out: &mut Bytes) -> Gave
        requires sits { Sits (K.ready desk.old) (K.part desk.old) (talking_stage self.old) }
        ensures row { MadeTurn (TalkTurn self.old.sender.block (talk_of self.old) (held_of self.old.receiver)) K.alone (K.stand desk.old) (K.stand desk.new) (talking_stage self.old) (talking_stage self.new) out.old.list out.new.list (gave_text result) }
        ensures sits { SitsOn (K.ready desk.new) (K.part desk.new) (talking_stage self.new) (gave_text result) }
        ensures tally { tally_of self.new ≡ tally_of self.old }
        ensures block { self.new.sender.block ≡ self.old.sender.block }
        ensures sent { gave_text result ≡ G.Sent → 0 < length out.new.list }
        ensures short { length out.new.list ≤ length out.old.list + 32800 }
    {
        if self.is_done() {
            return Gave::Ended(End::Finished);
        }
        if self.own_end {
            return Gave::Waits;
        }
        match self.sender.next(alloc, desk, out) {
            Ok(SendStep::Sent) => Gave::Sent,
            Ok(SendStep::Waiting) => Gave::Waits,
            Ok(SendStep::Empty) => self.end_batch(alloc, out),
            Err(fault) => Gave::Ended(end_by_fault(alloc, fault, out)),
        }
    }

    fn is_done(&self) -> bool
        ensures { result ≡ is_finished (talk_of self.now) (held_of self.now.receiver) }
    {
        self.own_end && (self.peer_end && is_idle(&self.receiver))
    }

    /// Whether the own batch ends once nothing is offered: the answering side's ends behind the peer's.
    fn may_end(&self) -> bool
        ensures { result ≡ (calls self.now.role || self.now.peer_end) }
    {
        calls(self.role) || self.peer_end
    }

    /// Nothing is offered: the own batch ends, or waits for the end of the peer's.
    fn end_batch(&mut self, alloc: Global, out: &mut Bytes) -> Gave
        ensures ends { EndsBatch self.old self.new out.old.list out.new.list (gave_text result) }
        ensures sent { gave_text result ≡ G.Sent → 0 < length out.new.list }
    {
        if !self.may_end() {
            return Gave::Waits;
        }
        match say_end(alloc, out) {
            Ok(()) => {
                self.own_end = true;
                Gave::Sent
            }
            Err(_) => Gave::Ended(End::NoMemory),
        }
    }
}
