//! The next file for the peer, and the file under way from another place.
ghost use Rattle.std.specs.Prelude.{◌≡◌, ◌≤◌, None, true};
ghost use Rattle.ftn_addr.specs.Key.{key_of};
ghost use Rattle.ftn_addr.specs.Limits.{IsKey};
ghost use Rattle.session_send.specs.Senders.{counts_in, sending_of, claim_of, TakesPlain, Steps};

use crate::saying::say_file;
use crate::sending::{SendStep, Sender, Sending};
use ftn_addr::{Bytes, FileKey, is_same_key};
use node_model::{Desk, DeskFault, Offer};
use std::alloc::Global;

impl Sending {
    ghost use Rattle.node_model.specs.Talk.{under_way};
    ghost use Rattle.session_send.specs.Senders.{sending_text};

    /// The file of a queued entry, to be sent from that place on.
    fn from_place(number: u32, key: FileKey, place: u64) -> Sending
        requires limits { IsKey (key_of key) }
        requires inside { place ≤ key.size }
        ensures { sending_text result ≡ under_way number (key_of key) place }
    {
        let bare = place == key.size;
        Sending {
            number,
            key,
            place,
            bare,
        }
    }
}

impl Sender {
    ghost use Rattle.node_model.specs.Talk.{Talk, GetTaken};

    /// Asks the desk for a file, and offers it.
    pub(crate) fn offer<K: Desk>(
        &mut self,
        alloc: Global,
        desk: &mut K,
        out: &mut Bytes,
    ) -> Result<SendStep, DeskFault>
        requires ready { K.ready desk.old }
        requires in_session { (K.part desk.old).open_now ≡ true }
        requires free { (K.part desk.old).claim ≡ None }
        requires idle { sending_of self.old ≡ None }
        ensures row { Steps self.old.block None K.alone (K.stand desk.old) (K.stand desk.new) (sending_of self.new) out.old.list out.new.list result }
        ensures counts { counts_in self.new ≡ counts_in self.old }
        ensures part { K.part desk.new ≡ record (K.part desk.old) { claim = claim_of (sending_of self.new) } }
        ensures block { self.new.block ≡ self.old.block }
        ensures ready { K.ready desk.new }
    {
        match desk.offer(alloc) {
            Ok(Offer::File(number, key)) => {
                let said = say_file(alloc, &key, 0, out);
                self.sending = Some(Sending::from_place(number, key, 0));
                match said {
                    Ok(()) => Ok(SendStep::Sent),
                    Err(_) => Err(DeskFault::NoMemory),
                }
            }
            Ok(Offer::Nothing) => Ok(SendStep::Empty),
            Err(fault) => Err(fault),
        }
    }

    /// M_GET.
    pub(crate) fn send_again(
        &mut self,
        alloc: Global,
        key: &FileKey,
        place: u64,
        out: &mut Bytes,
    ) -> Result<(), DeskFault>
        requires limits { IsKey (key_of key.now) }
        requires inside { place ≤ key.now.size }
        ensures row { (t : Talk) → t.sending ≡ sending_of self.old → TakesPlain (GetTaken t (key_of key.now) place) t (sending_of self.new) out.old.list out.new.list result }
        ensures counts { counts_in self.new ≡ counts_in self.old }
        ensures claim { claim_of (sending_of self.new) ≡ claim_of (sending_of self.old) }
        ensures block { self.new.block ≡ self.old.block }
    {
        let Some(sending) = &mut self.sending else {
            return Ok(());
        };
        if !is_same_key(&sending.key, key) {
            return Ok(());
        }
        match say_file(alloc, key, place, out) {
            Ok(()) => {
                sending.place = place;
                sending.bare = place == sending.key.size;
                Ok(())
            }
            Err(_) => Err(DeskFault::NoMemory),
        }
    }
}
