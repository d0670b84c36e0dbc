//! What a sender does.
ghost use Rattle.std.specs.Prelude.{◌≡◌, ◌<◌, ◌≤◌, None, Some, true, IfOk, length};
ghost use Rattle.ftn_addr.specs.Key.{key_of};
ghost use Rattle.binkp_args.specs.Command.{command_text};
ghost use Rattle.binkp_args.specs.Limits.{HasFile};
ghost use Rattle.session_send.specs.Senders.{counts_in, sending_of, claim_of, CommandRow, IsUnderWay, Takes, Steps};

use crate::saying::say_file;
use crate::sending::{SendStep, Sender, Sending};
use binkp_args::Command;
use ftn_addr::{Bytes, FileKey, is_same_key};
use node_model::{Desk, DeskFault, Offer};
use std::alloc::Global;

impl Sender {
    ghost use Rattle.std.specs.Prelude.{ℕ, List, false};
    ghost use Rattle.node_model.specs.Talk.{Talk, IsOther, GotTaken, SkipTaken, GetTaken};

    /// A sender with no file under way, whose frames have at most `block` bytes of data, 1 to 32,767. This takes no memory.
    pub fn new(block: u16) -> Sender
        requires some { 0 < block }
        requires fits { block ≤ 32767 }
        ensures block { result.block ≡ block }
        ensures idle { sending_of result ≡ None }
        ensures none { counts_in result ≡ record { sent = 0; skipped = 0 } }
    {
        Sender {
            block,
            sending: None,
            sent: 0,
            skipped: 0,
        }
    }

    /// Takes a command of the peer's, as `read_command` reads it: M_GOT settles the file under way, M_SKIP leaves it to a
    /// later session, and M_GET has it sent from another place. Of another file, and every other command, is passed over.
    ///
    /// # Errors
    /// What the desk refused, and `NoMemory` where the M_FILE that an M_GET wants finds none. The file under way and its
    /// place are as before, and nothing is written.
    pub fn take<K: Desk>(
        &mut self,
        alloc: Global,
        command: &Command,
        desk: &mut K,
        out: &mut Bytes,
    ) -> Result<(), DeskFault>
        requires ready { K.ready desk.old }
        requires in_session { (K.part desk.old).open_now ≡ true }
        requires claim { (K.part desk.old).claim ≡ claim_of (sending_of self.old) }
        requires file { HasFile (command_text command.now) }
        ensures row { (t : Talk) → t.sending ≡ sending_of self.old → Takes (CommandRow t (command_text command.now)) K.alone (K.stand desk.old) (K.stand desk.new) t (sending_of self.new) (counts_in self.old) (counts_in self.new) out.old.list out.new.list result }
        ensures part { K.part desk.new ≡ record (K.part desk.old) { claim = claim_of (sending_of self.new) } }
        ensures block { self.new.block ≡ self.old.block }
        ensures ready { K.ready desk.new }
    {
        match command {
            Command::Got(key) => self.settle(key, desk),
            Command::Skip(key) => self.put_off(key, desk),
            Command::Get(key, place) => self.send_again(alloc, key, *place, out),
            Command::Nul(_) => Ok(()),
            Command::Adr(_) => Ok(()),
            Command::Pwd(_) => Ok(()),
            Command::File(_, _) => Ok(()),
            Command::Accept(_) => Ok(()),
            Command::Eob => Ok(()),
            Command::Err(_) => Ok(()),
            Command::Bsy(_) => Ok(()),
            Command::Other(_) => Ok(()),
        }
    }

    /// Makes the next step: offers a file where none is under way, else sends one frame of the one that is, or waits.
    ///
    /// # Errors
    /// What the desk refused, and `NoMemory`: then nothing is written, and nothing was asked of the desk, unless a file
    /// was offered. That file is under way then, and its M_FILE isn't said.
    pub fn next<K: Desk>(
        &mut self,
        alloc: Global,
        desk: &mut K,
        out: &mut Bytes,
    ) -> Result<SendStep, DeskFault>
        requires ready { K.ready desk.old }
        requires in_session { (K.part desk.old).open_now ≡ true }
        requires claim { (K.part desk.old).claim ≡ claim_of (sending_of self.old) }
        ensures row { Steps self.old.block (sending_of self.old) K.alone (K.stand desk.old) (K.stand desk.new) (sending_of self.new) out.old.list out.new.list result }
        ensures counts { counts_in self.new ≡ counts_in self.old }
        ensures part { K.part desk.new ≡ record (K.part desk.old) { claim = claim_of (sending_of self.new) } }
        ensures block { self.new.block ≡ self.old.block }
        ensures ready { K.ready desk.new }
    {
        let block = self.block;
        match &mut self.sending {
            None => self.offer(alloc, desk, out),
            Some(sending) => sending.go_on(alloc, block, desk, out),
        }
    }

    fn is_under_way(&self, key: &FileKey) -> bool
        ensures under_way { result ≡ true → IsUnderWay (key_of key.now) (sending_of self.now) }
        ensures other { result ≡ false → IsOther (key_of key.now) (sending_of self.now) }
    {
        match &self.sending {
            Some(sending) => is_same_key(&sending.key, key),
            None => false,
        }
    }

    /// M_GOT.
    fn settle<K: Desk>(&mut self, key: &FileKey, desk: &mut K) -> Result<(), DeskFault>
        requires ready { K.ready desk.old }
        requires in_session { (K.part desk.old).open_now ≡ true }
        requires claim { (K.part desk.old).claim ≡ claim_of (sending_of self.old) }
        ensures row { (t : Talk) (out : List ℕ) → t.sending ≡ sending_of self.old → Takes (GotTaken t (key_of key.now)) K.alone (K.stand desk.old) (K.stand desk.new) t (sending_of self.new) (counts_in self.old) (counts_in self.new) out out result }
        ensures part { K.part desk.new ≡ record (K.part desk.old) { claim = claim_of (sending_of self.new) } }
        ensures block { self.new.block ≡ self.old.block }
        ensures ready { K.ready desk.new }
    {
        if !self.is_under_way(key) {
            return Ok(());
        }
        match desk.got() {
            Ok(()) => {
                self.sending = None;
                self.sent = self.sent.saturating_add(1);
                Ok(())
            }
            Err(fault) => Err(fault),
        }
    }

    /// M_SKIP.
    fn put_off<K: Desk>(&mut self, key: &FileKey, desk: &mut K) -> Result<(), DeskFault>
        requires ready { K.ready desk.old }
        requires in_session { (K.part desk.old).open_now ≡ true }
        requires claim { (K.part desk.old).claim ≡ claim_of (sending_of self.old) }
        ensures row { (t : Talk) (out : List ℕ) → t.sending ≡ sending_of self.old → Takes (SkipTaken t (key_of key.now)) K.alone (K.stand desk.old) (K.stand desk.new) t (sending_of self.new) (counts_in self.old) (counts_in self.new) out out result }
        ensures part { K.part desk.new ≡ record (K.part desk.old) { claim = claim_of (sending_of self.new) } }
        ensures block { self.new.block ≡ self.old.block }
        ensures ready { K.ready desk.new }
    {
        if self.is_under_way(key) {
            desk.skip();
            self.sending = None;
            self.skipped = self.skipped.saturating_add(1);
        }
        Ok(())
    }
}
